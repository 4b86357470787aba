//! A seat that answers calls one after another: by a look beside the server, or by the server.
ghost use Rattle.std.specs.Prelude.{◌≡◌, false, not, IfOk};
ghost use Rattle.table.specs.Operations.{is_update, is_value};
ghost use Rattle.node.specs.Lawful.{IsCall};
ghost use Rattle.node.specs.declared.messages.Output.TheVariants.{Reply as Replied};
ghost use Rattle.faces.specs.Histories.{History, IsLater};
ghost use Rattle.faces.specs.Outputs.{PutsOut};
ghost use Rattle.rail.specs.Seats.{with_reply};
ghost use Rattle.seats.specs.Replies.{HasAllReplies};
ghost use Rattle.seats.specs.SeatCallers.{HasReplied, IsExchanged};

use crate::peeks::peek;
use ends::Failures;
use rail::{CallSender, Reader, Seat, ThreadHandle};
use server_guards::Mark;
use serving::{CallFault, Caller};
use std::marker::Model;
use std::sync::Wait;
use table::{Call, Op, Reply, Target};

/// Answers calls at a server: a read by a clean look at the server's face, and all else by the server, for whose reply
/// it waits. So another thread takes the server's turns. Contracts see what was seen, the seat with the calls and
/// replies at it, the sender with what it sent, and whether a call that was sent got no reply (`SeatCalling`).
#[derive(Drop)]
pub struct SeatCaller {
    reader: Reader,
    seat: Seat,
    call_sender: CallSender,
    // Set as soon as the server fails.
    mark: Mark,
    // Whether a call that was sent got no reply. Nothing is sent from then on.
    lost: bool,
    failures: Failures,
}

impl Model for SeatCaller {
    ghost use Rattle.std.specs.Coded.{codes};
    ghost use Rattle.atomic_table.specs.Seated.{table_id_coded};
    ghost use Rattle.logbook.specs.Pages.{book_coded};
    ghost use Rattle.versions.specs.Stores.{coded_items};
    ghost use Rattle.seats.specs.SeatCallers.{SeatCalling, IsSeatCaller};

    ghost Value = { SeatCalling };

    ghost coded = { Prim.hlevel (codes, coded_items, book_coded, table_id_coded) };

    ghost view = { λ c. record {
      seen = c.reader.seen;
      seat = c.seat;
      sender = c.call_sender;
      lost = c.lost;
      failures = c.failures;
    } };

    ghost invariant = { λ c. IsSeatCaller c.reader c.seat c.call_sender c.lost };
}

impl SeatCaller {
    ghost use Rattle.std.specs.Prelude.{◌≡◌, false, not, IfOk};
    ghost use Rattle.table.specs.Operations.{is_update, is_value};
    ghost use Rattle.seats.specs.Replies.{HasAllReplies};
    ghost use Rattle.seats.specs.SeatCallers.{HasReplied, seat_calling};

    /// One that answers by what one thread has of its server, which has this mark.
    pub fn new(thread_handle: ThreadHandle, mark: Mark) -> SeatCaller
        requires { HasAllReplies thread_handle.seat }
        ensures { result ≡ seat_calling thread_handle.reader thread_handle.seat thread_handle.call_sender }
    {
        let ThreadHandle {
            reader,
            seat,
            call_sender,
        } = thread_handle;
        SeatCaller {
            reader,
            seat,
            call_sender,
            mark,
            lost: false,
            failures: Failures::new(),
        }
    }

    // Answers a call by a clean look, or by the server. Refused if the server is marked, also after a clean look; if
    // the call would be sent, and one that was sent before got no reply; if it is sent and gets none.
    fn answer<R: Wait>(&mut self, rt: &R, call: Call) -> Result<Reply, CallFault>
        requires { IsCall call }
        ensures answered { IfOk result (λ reply. HasReplied self.old call reply self.new) }
        ensures kind { IfOk result (λ reply. is_value reply ≡ not (is_update call.op)) }
        ensures failures { self.new.failures ≡ self.old.failures }
    {
        let found = peek(&mut self.reader, &call);
        if self.mark.is_set() {
            drop(found);
            drop(call);
            return Err(CallFault);
        }
        match found {
            Some(reply) => {
                drop(call);
                Ok(reply)
            }
            None => self.ask(rt, call),
        }
    }

    // Has the server answer a call.
    fn ask<R: Wait>(&mut self, rt: &R, call: Call) -> Result<Reply, CallFault>
        requires { IsCall call }
        ensures exchanged { IfOk result (λ reply. (self.old.lost ≡ false) × IsExchanged self.old.seen self.new.seen
            self.old.seat self.new.seat self.old.sender self.new.sender call reply) }
        ensures kind { IfOk result (λ reply. is_value reply ≡ not (is_update call.op)) }
        ensures failures { self.new.failures ≡ self.old.failures }
    {
        if self.lost {
            drop(call);
            return Err(CallFault);
        }
        exchange(
            rt,
            &mut self.reader,
            &mut self.seat,
            &mut self.call_sender,
            &mut self.lost,
            call,
        )
    }
}

impl Caller for SeatCaller {
    ghost answers = { HasReplied };

    ghost failures = { λ c. c.failures };

    fn call<R: Wait>(&mut self, rt: &R, target: &Target, op: &Op) -> Result<Reply, CallFault> {
        let answered = match copied(target, op) {
            Ok(call) => self.answer(rt, call),
            Err(fault) => Err(fault),
        };
        match answered {
            Ok(reply) => Ok(reply),
            Err(fault) => {
                self.failures.rise();
                Err(fault)
            }
        }
    }
}

// The call, as one that can be sent. Its key and its data are shared. Refused only if memory is out.
fn copied(target: &Target, op: &Op) -> Result<Call, CallFault>
    ensures { IfOk result (λ call. call ≡ record { target = target.now; op = op.now }) }
{
    let Ok(target) = target.clone() else {
        return Err(CallFault);
    };
    match op.clone() {
        Ok(op) => Ok(Call { target, op }),
        Err(_) => {
            drop(target);
            Err(CallFault)
        }
    }
}

// Sends a call and takes its reply, and learns what comes with it. If it got none, that is noted.
fn exchange<R: Wait>(
    rt: &R,
    reader: &mut Reader,
    seat: &mut Seat,
    call_sender: &mut CallSender,
    lost: &mut bool,
    call: Call,
) -> Result<Reply, CallFault>
    requires call { IsCall call }
    requires together { seat.old.instance ≡ reader.old.seen.instance }
    requires server { seat.old.instance ≡ call_sender.old.instance }
    requires replied { HasAllReplies seat.old }
    requires unlost { lost.old ≡ false }
    ensures together { seat.new.instance ≡ reader.new.seen.instance }
    ensures server { seat.new.instance ≡ call_sender.new.instance }
    ensures replied { lost.new ≡ false → HasAllReplies seat.new }
    ensures exchanged { IfOk result (λ reply. IsExchanged reader.old.seen reader.new.seen seat.old seat.new
        call_sender.old call_sender.new call reply) }
    ensures kind { IfOk result (λ reply. is_value reply ≡ not (is_update call.op)) }
{
    let updates = call.op.is_update();
    match call_sender.submit(rt, seat, call) {
        Ok(()) => {}
        Err(back) => {
            drop(back);
            return Err(CallFault);
        }
    }
    *lost = true;
    let reply = heard(rt, reader, seat, updates)?;
    *lost = false;
    Ok(reply)
}

// The next reply, once what comes with it was learned. Refused if there is none, or it isn't one to such a call.
fn heard<R: Wait>(
    rt: &R,
    reader: &mut Reader,
    seat: &mut Seat,
    updates: bool,
) -> Result<Reply, CallFault>
    requires together { seat.old.instance ≡ reader.old.seen.instance }
    ensures together { seat.new.instance ≡ reader.new.seen.instance }
    ensures instance { seat.new.instance ≡ seat.old.instance }
    ensures later { IsLater reader.old.seen reader.new.seen }
    ensures got { IfOk result (λ reply. (told : History) × (seat.new ≡ with_reply seat.old reply told) ×
        IsLater told reader.new.seen × PutsOut told (Replied seat.old.port reply)) }
    ensures kind { IfOk result (λ reply. is_value reply ≡ not updates) }
{
    match seat.reply(rt) {
        Ok((reply, told)) => {
            reader.learn(told);
            if matches!(reply, Reply::Value(_)) == updates {
                drop(reply);
                return Err(CallFault);
            }
            Ok(reply)
        }
        Err(_) => Err(CallFault),
    }
}
