//! Updates that are taken ahead of their turns, while an update before them is open.
ghost use Rattle.std.specs.Prelude.{◌≡◌, ◌≤◌, IfOk, OnErr, MatchOption, length, drop, true, None, Some};
ghost use Rattle.table.specs.Operations.{Fits, Suits, is_update};
ghost use Rattle.proto.specs.declared.front.Found.TheVariants.{Request as Requested};
ghost use Rattle.proto.specs.Fronts.{IsWhole, found_at};
ghost use Rattle.proto.specs.LoneSets.{IsAtFront};
ghost use Rattle.proto.specs.Turns.{form_of};
ghost use Rattle.proto.specs.Ahead.{IsBetween, IsTakenAhead, update_at, update_of};

use crate::front::{Found, front};
use crate::lone_sets::LoneSet;
use crate::turns::update_form;
use crate::{Form, Request, Session};
use std::alloc::AllocError;
use table::{Call, Op, Target};

/// An update that was taken ahead of its turn.
#[derive(Debug, Drop)]
pub struct Update {
    /// What it asks of the table.
    pub call: Call,
    /// Whether its line said `noreply` (protocol.txt, "Storage commands").
    pub silent: bool,
}

impl Session {
    ghost use Rattle.std.specs.Prelude.{◌≡◌, ◌≤◌, ◌↔◌, IfOk, IsTrue, OnErr, MatchOption, length, None, Some};
    ghost use Rattle.table.specs.Operations.{Fits, Suits, is_update};
    ghost use Rattle.proto.specs.declared.front.Found.TheVariants.{Request as Requested};
    ghost use Rattle.proto.specs.Fronts.{IsWhole, found_at};
    ghost use Rattle.proto.specs.LoneSets.{IsAtFront};
    ghost use Rattle.proto.specs.Turns.{form_of};
    ghost use Rattle.proto.specs.Sessions.{CanRefuse};
    ghost use Rattle.proto.specs.Ahead.{IsBetween, IsTakenAhead, ahead_of, update_of};

    /// Takes the update that stands whole at the front of the unread bytes, though a call may be open, which stays so:
    /// its turn comes once all calls before it are answered or refused (`resume`). None if no update stands whole
    /// there, or another request isn't over: nothing changes then. An error if memory is out, and nothing changes. It
    /// reads what `next` would read.
    pub fn ahead(&mut self) -> Result<Option<Update>, AllocError>
        ensures ahead { IfOk result (λ found. MatchOption found
            ((ahead_of self.old ≡ None) × (self.new ≡ self.old))
            (λ update. IsTakenAhead update self.old self.new)) }
        ensures err { OnErr result (self.new ≡ self.old) }
    {
        if !self.is_between() {
            return Ok(None);
        }
        match self.set_at_front()? {
            Some(set) => Ok(Some(self.take_set(set))),
            None => self.take_front(),
        }
    }

    /// Whether the open call is an update: only then may one be taken ahead that keeps the order of calls.
    pub fn awaits_update(&self) -> bool
        ensures { IsTrue result ↔ CanRefuse self.now.asked }
    {
        match &self.asked {
            Some(Form::Status | Form::Silent) => true,
            Some(Form::Show(_)) | None => false,
        }
    }

    /// The turn of an update that was taken ahead has come: it is the open call from now on.
    pub fn resume(&mut self, silent: bool)
        requires idle { self.old.asked ≡ None }
        ensures { self.new ≡ record self.old { asked = Some (form_of silent) } }
    {
        drop(self.asked.replace(update_form(silent)));
    }

    // Whether no request was begun that isn't over, and the session isn't closed.
    fn is_between(&self) -> bool
        ensures { IsTrue result ↔ IsBetween self.now }
    {
        !self.closed && self.later.is_empty() && self.skipped_block.is_none()
    }

    // Takes this `set`, which stands at the front.
    fn take_set(&mut self, set: LoneSet) -> Update
        requires between { IsBetween self.old }
        requires front { IsAtFront set self.old.unread }
        ensures { IsTakenAhead result self.old self.new }
    {
        let LoneSet {
            key,
            flags,
            silent,
            block,
            end,
        } = set;
        let call = Call {
            target: Target::One(key),
            op: Op::Set(flags, block),
        };
        self.consume(end);
        Update { call, silent }
    }

    // Takes the update that the unread bytes spell at the front, if they spell one there.
    fn take_front(&mut self) -> Result<Option<Update>, AllocError>
        requires between { IsBetween self.old }
        ensures ahead { IfOk result (λ found. MatchOption found
            ((ahead_of self.old ≡ None) × (self.new ≡ self.old))
            (λ update. IsTakenAhead update self.old self.new)) }
        ensures err { OnErr result (self.new ≡ self.old) }
    {
        match front(self.alloc, &mut self.pending, self.unread.as_slice())? {
            Found::Request(request, n) => Ok(self.take_update(request, n)),
            Found::Refused(_) | Found::Nothing => Ok(None),
        }
    }

    // Takes the request that the first n unread bytes spell, if it is an update.
    fn take_update(&mut self, request: Request, n: usize) -> Option<Update>
        requires between { IsBetween self.old }
        requires front { found_at self.old.unread ≡ Requested request n }
        requires within { n ≤ length self.old.unread }
        requires whole { IsWhole request }
        ensures { MatchOption result
            ((update_of request ≡ None) × (self.new ≡ self.old))
            (λ update. IsTakenAhead update self.old self.new) }
    {
        let update = update_in(request)?;
        self.consume(n);
        Some(update)
    }
}

// The update that a request is.
fn update_in(request: Request) -> Option<Update>
    requires { IsWhole request }
    ensures { MatchOption result (update_of request ≡ None)
        (λ update. (update_of request ≡ Some (update.call, update.silent)) × Fits update.call.op
        × Suits update.call.target update.call.op × (is_update update.call.op ≡ true)) }
{
    match request {
        Request::Store(key, op, silent) | Request::Arith(key, op, silent) => {
            Some(update_of(Target::One(key), op, silent))
        }
        Request::Delete(key, silent) => Some(update_of(Target::One(key), Op::Delete, silent)),
        Request::Flush(silent) => Some(update_of(Target::All, Op::Flush, silent)),
        other => {
            drop(other);
            None
        }
    }
}

fn update_of(target: Target, op: Op, silent: bool) -> Update
    ensures { result ≡ record { call = record { target = target; op = op }; silent = silent } }
{
    let call = Call { target, op };
    Update { call, silent }
}
