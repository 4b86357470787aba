//! Seats at which a call is sent, and its reply is taken later.
ghost use Rattle.std.specs.Prelude.{◌≡◌, IfOk, OnOk, MatchResult};
ghost use Rattle.faces.specs.Histories.{IsLater};
ghost use Rattle.seats.specs.Submitters.{IsReplyAt, is_reply_at, stage_of};

use rail::{CallSender, Reader, Seat, Told};
use serving::CallFault;
use std::marker::Model;
use std::sync::Wait;
use table::{Call, Reply};

/// What waits at a seat.
#[derive(Clone, Copy, PartialEq, Eq)]
pub enum SubmitterStage {
    /// No call.
    Free,
    /// A read, whose reply is an item, or none.
    Read,
    /// An update, whose reply is anything else.
    Update,
    /// No call any more, ever.
    Lost,
}

/// A seat with at most one open call: `submit` has it sent, and `take` takes its reply once that stands there.
/// Contracts see the seat with the calls that have their replies, the open call with its sender, and whether it is lost
/// (`Submitting`). Once it is lost, nothing is sent or answered any more.
#[derive(Drop)]
pub struct Submitter {
    seat: Seat,
    stage: SubmitterStage,
}

impl Model for Submitter {
    ghost use Rattle.std.specs.Coded.{codes};
    ghost use Rattle.atomic_table.specs.Seated.{table_id_coded};
    ghost use Rattle.logbook.specs.Pages.{book_coded};
    ghost use Rattle.versions.specs.Stores.{coded_items};
    ghost use Rattle.seats.specs.Submitters.{Submitting, IsOpen, submitting};

    ghost Value = { Submitting };

    ghost coded = { Prim.hlevel (codes, coded_items, book_coded, table_id_coded) };

    ghost view = { λ s. submitting s.stage s.seat };

    ghost invariant = { λ s. IsOpen s.stage s.seat };
}

impl Submitter {
    ghost use Rattle.std.specs.Prelude.{◌≡◌, true, None, Some, Option, IsSome};
    ghost use Rattle.std.specs.Prelude.{OnOk, OnErr, IfOk, IsErr, MatchBool, MatchOption};
    ghost use Rattle.node.specs.Lawful.{IsCall};
    ghost use Rattle.faces.specs.Histories.{IsLater};
    ghost use Rattle.rail.specs.CallSenders.{with_call};
    ghost use Rattle.seats.specs.Replies.{HasAllReplies};
    ghost use Rattle.seats.specs.Submitters.{IsAnswered, all_sent, unused};

    /// A seat at which no call is open.
    pub fn new(seat: Seat) -> Submitter
        requires replied { HasAllReplies seat }
        ensures { result ≡ unused seat }
    {
        Submitter {
            seat,
            stage: SubmitterStage::Free,
        }
    }

    /// Whether no call is open, so that one may be submitted.
    pub fn is_free(&self) -> bool
        ensures { MatchBool result (self.now.waiting ≡ None) (IsSome self.now.waiting) }
    {
        match self.stage {
            SubmitterStage::Free => true,
            SubmitterStage::Read => false,
            SubmitterStage::Update => false,
            SubmitterStage::Lost => true,
        }
    }

    /// Has this sender of its server send a call, which is open from then on. Refused if the worker is gone, or it is
    /// lost: nothing was sent then, and every later call is refused too. It may wait, if the server's queue is full.
    pub fn submit<R: Wait>(
        &mut self,
        rt: &R,
        call_sender: &mut CallSender,
        call: Call,
    ) -> Result<(), CallFault>
        requires call { IsCall call }
        requires free { self.old.waiting ≡ None }
        requires server { self.old.seat.instance ≡ call_sender.old.instance }
        ensures sent { OnOk result (self.new ≡
            record self.old { waiting = Some (record { sender = call_sender.old; call = call }) }) }
        ensures sender { OnOk result (call_sender.new ≡ with_call call_sender.old self.old.seat.port call) }
        ensures err { OnErr result (self.new ≡ record self.old { lost = true }) }
        ensures unsent { OnErr result (call_sender.new ≡ call_sender.old) }
        ensures spent { self.old.lost ≡ true → IsErr result }
    {
        if let SubmitterStage::Lost = self.stage {
            drop(call);
            return Err(CallFault);
        }
        let stage = stage_of(&call);
        match call_sender.submit(rt, &mut self.seat, call) {
            Ok(()) => {
                self.stage = stage;
                Ok(())
            }
            Err(back) => {
                drop(back);
                self.stage = SubmitterStage::Lost;
                Err(CallFault)
            }
        }
    }

    /// The reply to the open call, if it stands there; the reader has then seen all that the server had published by
    /// then. None if it isn't there yet, or no call is open. Refused if the worker is gone or stopped, if the reply
    /// isn't one to such a call, or if it is lost. After a refusal it is lost, and no call is open. It waits for
    /// nobody.
    pub fn take<R: Wait>(&mut self, rt: &R, reader: &mut Reader) -> Result<Option<Reply>, CallFault>
        requires together { self.old.seat.instance ≡ reader.old.seen.instance }
        ensures together { self.new.seat.instance ≡ reader.new.seen.instance }
        ensures later { IsLater reader.old.seen reader.new.seen }
        ensures looks { reader.new.looks ≡ reader.old.looks }
        ensures taken { IfOk result (λ found. MatchOption found
            ((self.new ≡ self.old) × (reader.new ≡ reader.old))
            (λ reply. IsAnswered reader.old.seen reader.new.seen self.old self.new reply)) }
        ensures lost { OnErr result ((self.new.lost ≡ true) × (self.new.waiting ≡ None)) }
        // Nothing more was sent.
        ensures sent { all_sent self.new ≡ all_sent self.old }
        ensures spent { self.old.lost ≡ true → IsErr result }
    {
        match self.stage {
            SubmitterStage::Free => return Ok(None),
            SubmitterStage::Lost => return Err(CallFault),
            SubmitterStage::Read | SubmitterStage::Update => {}
        }
        match self.seat.reply_if_any(rt) {
            Ok(None) => Ok(None),
            Ok(Some((reply, told))) => {
                let reply = hear(&mut self.stage, reader, reply, told)?;
                Ok(Some(reply))
            }
            Err(_) => {
                self.stage = SubmitterStage::Lost;
                Err(CallFault)
            }
        }
    }
}

// What is open once a call is sent.
fn stage_of(call: &Call) -> SubmitterStage
    ensures { result ≡ stage_of call.now }
{
    if call.op.is_update() {
        SubmitterStage::Update
    } else {
        SubmitterStage::Read
    }
}

// Takes a reply to the open call, and learns what comes with it. Refused if it isn't one to such a call.
fn hear(
    stage: &mut SubmitterStage,
    reader: &mut Reader,
    reply: Reply,
    told: Told,
) -> Result<Reply, CallFault>
    requires server { told.instance ≡ reader.old.seen.instance }
    ensures later { IsLater reader.old.seen reader.new.seen }
    ensures told { IsLater told reader.new.seen }
    ensures looks { reader.new.looks ≡ reader.old.looks }
    ensures reply { IfOk result (λ given. given ≡ reply) }
    ensures kind { OnOk result (IsReplyAt stage.old reply) }
    ensures stage { MatchResult result (λ _. stage.new ≡ SubmitterStage.Free) (λ _. stage.new ≡ SubmitterStage.Lost) }
{
    reader.learn(told);
    if is_reply_at(*stage, &reply) {
        *stage = SubmitterStage::Free;
        Ok(reply)
    } else {
        *stage = SubmitterStage::Lost;
        Err(CallFault)
    }
}

// Whether a reply is one to such a call.
fn is_reply_at(stage: SubmitterStage, reply: &Reply) -> bool
    ensures { result ≡ is_reply_at stage reply.now }
{
    let shows = matches!(reply, Reply::Value(_));
    match stage {
        SubmitterStage::Read => shows,
        SubmitterStage::Update => !shows,
        SubmitterStage::Free | SubmitterStage::Lost => false,
    }
}
