//! Seats, at which calls are sent to a worker, and which wait for their replies.
ghost use Rattle.std.specs.Prelude.{◌≡◌, [], MatchOption, MatchResult, IfOk, IfErr, IfSome};
ghost use Rattle.crossbeam_channel.specs.Claims.{view};
ghost use Rattle.node.specs.Lawful.{IsCall};
ghost use Rattle.node.specs.declared.messages.Input.TheVariants.{Call as Called};
ghost use Rattle.node.specs.declared.messages.Output.TheVariants.{Reply as Replied};
ghost use Rattle.faces.specs.Outputs.{PutsOut};
ghost use Rattle.rail.specs.Seats.{seat_of, with_reply};
ghost use Rattle.rail.specs.declared.inbox_messages.InboxMessage.TheVariants.{Took};

use crate::RailFault;
use crate::call_notes::CallNote;
use crate::inbox::SenderWithPass;
use crate::inbox_messages::{FitInput, InboxMessage};
use crate::reply_channels::ReplyReceiver;
use faces::Told;
use node::Input;
use std::marker::Model;
use std::sync::Wait;
use table::{Call, Reply};

/// A seat at a server: a `CallSender` sends its calls, and it takes their replies. Contracts see whose seat it is, the
/// calls that were sent at it, and the replies that it took (`SeatState`).
#[derive(Drop)]
pub struct Seat {
    port: usize,
    // What was sent, which contracts alone see. There is room for all of it from the first: a note has no bytes.
    calls: Vec<CallNote>,
    reply_receiver: ReplyReceiver,
}

impl Model for Seat {
    ghost use Rattle.std.specs.Prelude.{◌≡◌};
    ghost use Rattle.std.specs.Coded.{codes};
    ghost use Rattle.atomic_table.specs.Seated.{table_id_coded};
    ghost use Rattle.logbook.specs.Pages.{book_coded};
    ghost use Rattle.versions.specs.Stores.{coded_items};
    ghost use Rattle.crossbeam_channel.specs.Claims as claims;
    ghost use Rattle.rail.specs.Seats.{SeatState, seat_of};

    ghost Value = { SeatState };

    ghost coded = { Prim.hlevel (codes, coded_items, book_coded, table_id_coded) };

    ghost view = { λ s. seat_of s.calls.items (claims.view s.reply_receiver.pass) };

    ghost invariant = { λ s. s.port ≡ (claims.view s.reply_receiver.pass).port };
}

impl Seat {
    ghost use Rattle.std.specs.Prelude.{◌≡◌, ◌∷◌, ◌++◌, []};

    pub(crate) fn new(port: usize, calls: Vec<CallNote>, reply_receiver: ReplyReceiver) -> Seat
        requires port { port ≡ (view reply_receiver.pass).port }
        requires calls { calls.items ≡ [] }
        ensures { result ≡ seat_of [] (view reply_receiver.pass) }
    {
        Seat {
            port,
            calls,
            reply_receiver,
        }
    }

    // Sends a call, of which this is the note. The call is handed back if the worker is gone, or the sender doesn't
    // have the seat's port, or there is no room for the note, of which there are as many as there ever are calls.
    pub(crate) fn send<R: Wait>(
        &mut self,
        rt: &R,
        inbox_sender: &mut SenderWithPass,
        call_note: CallNote,
        call: Call,
    ) -> Result<(), Call>
        requires { IsCall call }
        ensures seat { MatchResult result (λ _. self.new ≡ record self.old { calls = self.old.calls ++ call_note ∷ [] })
            (λ back. (back ≡ call) × (self.new ≡ self.old)) }
        ensures sent { MatchResult result
            (λ _. (view inbox_sender.new.pass).put
            ≡ (view inbox_sender.old.pass).put ++ Took (Called self.old.port call) ∷ [])
            (λ _. view inbox_sender.new.pass ≡ view inbox_sender.old.pass) }
        ensures number { (view inbox_sender.new.pass).from ≡ (view inbox_sender.old.pass).from }
        ensures inbox { inbox_sender.new.pass.table_id ≡ inbox_sender.old.pass.table_id }
    {
        if self.port >= inbox_sender.ports() || self.calls.len() >= self.calls.capacity() {
            return Err(call);
        }
        let inbox_message = InboxMessage::Took(FitInput::new(Input::Call(self.port, call)));
        match inbox_sender.send(rt, inbox_message) {
            Ok(()) => {
                self.calls.push_reserved(call_note);
                Ok(())
            }
            Err(InboxMessage::Took(back)) => match back.into_input() {
                Input::Call(_, call) => Err(call),
                _ => unreachable!(),
            },
            Err(_) => unreachable!(),
        }
    }

    /// The next reply, with a note of what the server had published by then. Refused with Closed if the worker has
    /// gone or stopped. It may wait.
    pub fn reply<R: Wait>(&mut self, rt: &R) -> Result<(Reply, Told), RailFault>
        ensures got { MatchResult result (λ r. self.new ≡ with_reply self.old r.0 r.1) (λ _. self.new ≡ self.old) }
        ensures server { IfOk result (λ r. r.1.instance ≡ self.old.instance) }
        // The step of the last input that the note tells of put the reply out, for this seat.
        ensures put_out { IfOk result (λ r. PutsOut r.1 (Replied self.old.port r.0)) }
        ensures fault { IfErr result (λ fault. fault ≡ RailFault.Closed) }
    {
        let reply_message = self.reply_receiver.take(rt)?;
        Ok(reply_message.open())
    }

    /// The same, if a reply stands there; none otherwise. It doesn't wait for one.
    pub fn reply_if_any<R: Wait>(&mut self, rt: &R) -> Result<Option<(Reply, Told)>, RailFault>
        ensures got { MatchResult result
            (λ found. MatchOption found (self.new ≡ self.old) (λ r. self.new ≡ with_reply self.old r.0 r.1))
            (λ _. self.new ≡ self.old) }
        ensures server { IfOk result (λ found. IfSome found (λ r. r.1.instance ≡ self.old.instance)) }
        // The step of the last input that the note tells of put the reply out, for this seat.
        ensures put_out { IfOk result (λ found. IfSome found (λ r. PutsOut r.1 (Replied self.old.port r.0))) }
        ensures fault { IfErr result (λ fault. fault ≡ RailFault.Closed) }
    {
        match self.reply_receiver.try_take(rt)? {
            Some(reply_message) => Ok(Some(reply_message.open())),
            None => Ok(None),
        }
    }
}
