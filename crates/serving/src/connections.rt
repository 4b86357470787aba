//! A connection without a thread: a client's side of the protocol, driven by what it wants next.
ghost use Rattle.std.specs.Prelude.{◌≡◌, ◌∷◌, [], length, None, IfOk, MatchOption, OnErr};
ghost use Rattle.table.specs.declared.operations.Reply.{Reply};
ghost use Rattle.serving.specs.Connections.{WentAhead, resumed};

use crate::endings::End;
use crate::outcomes::Outcomes;
use ends::Passed;
use proto::{Session, Step, Update};
use std::alloc::{AllocError, Global};
use std::collections::VecDeque;
use std::marker::Model;
use table::{Call, Op, Reply, Target};

/// What a connection wants next.
#[derive(Debug, Drop)]
pub enum Wants {
    /// The reply to this operation on this target.
    Call(Target, Op),
    /// That output is written.
    Write,
    /// Input.
    Read,
    /// Nothing any more.
    End(End),
}

/// If this much output is due, it is written before a further call begins: 64 KiB.
pub const OUTPUT: usize = 65_536;

/// One client's connection. It is fed with what was read, says what it wants next, is handed the replies to its calls
/// or told to refuse one, and told how much of its output was written. It reads, writes, calls and waits for nothing
/// by itself. After a refusal for memory it makes no further call, and takes no further input; what is due may still be
/// written.
#[derive(Drop)]
pub struct Connection {
    session: Session,
    // What was read, what the calls came to, and what was written, for contracts alone.
    read: Passed,
    outcomes: Outcomes,
    written: Passed,
    // For each update that was taken ahead of its turn, the oldest first, whether it is silent.
    ahead: VecDeque<bool>,
    ended: bool,
    failed: bool,
    // Whether all that was read is known to be answered, so that the session isn't asked again before more is read.
    rests: bool,
}

impl Model for Connection {
    ghost use Rattle.serving.specs.Connections.{Connected, IsReachedAhead, IsResting, reached};

    ghost Value = { Connected };

    ghost view = { λ c. reached c.read c.outcomes.all c.written c.session c.ahead.items c.ended c.failed };

    ghost invariant = { λ c. IsReachedAhead c.read c.outcomes.all c.written c.session c.ahead.items
        × IsResting c.rests c.read c.outcomes.all c.written c.session c.ahead.items };
}

impl Connection {
    ghost use Rattle.std.specs.Prelude.{◌≡◌, ◌≤◌, ◌++◌, ℕ, List, [], false, true, take, drop, length};
    ghost use Rattle.std.specs.Prelude.{IsOk, IsErr, IfOk, IsTrue, OnOk, OnErr, MatchOption, MatchResult};
    ghost use Rattle.serving.specs.Connections.{unused, IsAnswered, IsBegun, IsLooked, HasOutcome, MayHave};
    ghost use Rattle.serving.specs.Connections.{MayRefuse, IsAskedAhead};
    ghost use Rattle.serving.specs.Wanted.{IsWanted, HasStepped};
    ghost use Rattle.serving.specs.Serving.{is_closed};
    ghost use Rattle.proto.specs.Turns.{Refused, Replied};

    /// A connection of which nothing was read. It allocates nothing.
    pub fn new(alloc: Global) -> Connection
        ensures { result ≡ unused }
    {
        Connection {
            session: Session::new(alloc),
            read: Passed::new(),
            outcomes: Outcomes::new(),
            written: Passed::new(),
            ahead: VecDeque::new(alloc),
            ended: false,
            failed: false,
            rests: false,
        }
    }

    /// Whatever was done: the calls are the first ones of the bytes that were read, each with what it came to, and what
    /// was written, with what is due, is a beginning of what is due for them; and so it stays, whatever bytes may
    /// follow.
    pub fn so_far(&self)
        ensures begun { (more : List ℕ) → IsBegun self.now (self.now.read ++ more) }
    {
        let _ = &self.session;
    }

    /// Takes a piece of input, which is copied once. It may be fed if it wants to read. Refused if memory is out,
    /// and then the piece counts as not read.
    pub fn feed(&mut self, piece: &[u8]) -> Result<(), AllocError>
        requires idle { self.old.waiting ≡ [] }
        requires written { self.old.due ≡ [] }
        requires open { self.old.closed ≡ false }
        requires goes_on { self.old.ended ≡ false }
        ensures ok { OnOk result (self.new ≡ record self.old { read = self.old.read ++ piece.now }) }
        ensures err { OnErr result (self.new ≡ record self.old { failed = true }) }
        ensures spent { self.old.failed ≡ true → IsErr result }
    {
        if self.failed {
            return Err(AllocError);
        }
        self.rests = false;
        match self.session.feed(piece) {
            Ok(()) => {
                self.read.add(piece);
                Ok(())
            }
            Err(_) => {
                self.failed = true;
                Err(AllocError)
            }
        }
    }

    /// The input has ended: what was read is answered, and then it is at its end.
    pub fn input_ended(&mut self)
        requires idle { self.old.waiting ≡ [] }
        ensures { self.new ≡ record self.old { ended = true } }
    {
        self.ended = true;
    }

    /// What it wants next: the call that it hands out waits from now on, until it is answered or refused. An error if
    /// memory is out, and from then on always.
    pub fn next(&mut self) -> Result<Wants, AllocError>
        requires idle { self.old.waiting ≡ [] }
        ensures looked { IsLooked self.old self.new }
        ensures wanted { IfOk result (λ wants. IsWanted wants self.new) }
        ensures failed { MatchResult result (λ _. self.new.failed ≡ false) (λ _. self.new.failed ≡ true) }
        // No call is open after a refusal, and none is opened then.
        ensures idle { OnErr result (self.new.waiting ≡ []) }
        ensures spent { self.old.failed ≡ true → IsErr result }
    {
        if self.has_failed() {
            return Err(AllocError);
        }
        if self.rests() {
            return Ok(self.at_rest(End::Input));
        }
        'turns: loop {
            if self.output().len() >= OUTPUT {
                return Ok(Wants::Write);
            }
            match self.turn()? {
                Step::Call(target, op) => return Ok(Wants::Call(target, op)),
                Step::Emit => {}
                Step::Wait => {
                    self.rest();
                    return Ok(self.at_rest(End::Input));
                }
                Step::Close => return Ok(self.at_rest(End::Closed)),
            }
        }
    }

    /// The next call while others wait, if the first of them is an update, and it is one that has come whole: it waits
    /// too from now on, after them. None if not, or if 64 KiB of output is due: nothing changes then. An error if memory
    /// is out.
    pub fn ahead(&mut self) -> Result<Option<Call>, AllocError>
        ensures ok { IfOk result (λ found. MatchOption found (self.new ≡ self.old)
            (λ call. IsAskedAhead call self.old self.new)) }
        ensures err { OnErr result (self.new ≡ record self.old { failed = true }) }
        ensures spent { self.old.failed ≡ true → IsErr result }
    {
        if self.failed {
            return Err(AllocError);
        }
        if !self.session.awaits_update() || self.output().len() >= OUTPUT {
            return Ok(None);
        }
        match take_ahead(&mut self.session, &mut self.ahead) {
            Ok(found) => {
                self.rests = false;
                Ok(found)
            }
            Err(_) => {
                self.failed = true;
                Err(AllocError)
            }
        }
    }

    /// Answers the call that waits longest, by an item, or none, exactly if it is a read. Its text is due then. An
    /// error if memory is out; the call still waits then.
    pub fn answer(&mut self, reply: &Reply) -> Result<(), AllocError>
        requires may_have { MayHave self.old.waiting reply.now }
        ensures ok { OnOk result (HasOutcome (Replied reply.now) self.old self.new) }
        ensures err { OnErr result (self.new ≡ record self.old { failed = true }) }
    {
        self.rests = false;
        match self.session.answer(reply) {
            Ok(()) => {
                self.outcomes = self.outcomes.then(reply);
                resume(&mut self.session, &mut self.ahead);
                Ok(())
            }
            Err(_) => {
                self.failed = true;
                Err(AllocError)
            }
        }
    }

    /// Refuses the call that waits longest, one that stores: it is not to be made. The line that says so is due then,
    /// or nothing if it is silent. An error if memory is out; the call still waits then.
    pub fn refuse(&mut self) -> Result<(), AllocError>
        requires may_refuse { MayRefuse self.old.waiting }
        ensures ok { OnOk result (HasOutcome Refused self.old self.new) }
        ensures err { OnErr result (self.new ≡ record self.old { failed = true }) }
    {
        self.rests = false;
        match self.session.refuse() {
            Ok(()) => {
                self.outcomes = self.outcomes.then_refused();
                resume(&mut self.session, &mut self.ahead);
                Ok(())
            }
            Err(_) => {
                self.failed = true;
                Err(AllocError)
            }
        }
    }

    /// The output that is due.
    pub fn output(&self) -> &[u8]
        ensures { result.now ≡ self.now.due }
    {
        self.session.out()
    }

    /// The first n bytes of the output were written.
    pub fn written(&mut self, n: usize)
        requires { n ≤ length self.old.due }
        ensures { self.new ≡
            record self.old { due = drop n self.old.due; written = self.old.written ++ take n self.old.due } }
    {
        self.written.add(&self.session.out()[..n]);
        self.session.taken(n);
    }

    /// Whether memory was refused to it.
    pub fn has_failed(&self) -> bool
        ensures { result ≡ self.now.failed }
    {
        self.failed
    }

    // The next step of the session.
    fn turn(&mut self) -> Result<Step, AllocError>
        requires idle { self.old.waiting ≡ [] }
        requires unfailed { self.old.failed ≡ false }
        ensures looked { IsLooked self.old self.new }
        ensures stepped { IfOk result (λ step. HasStepped step self.old self.new) }
        ensures idle { OnErr result (self.new.waiting ≡ []) }
        ensures failed { MatchResult result (λ _. self.new.failed ≡ false) (λ _. self.new.failed ≡ true) }
    {
        self.rests = false;
        match self.session.next() {
            Ok(step) => Ok(step),
            Err(_) => {
                self.failed = true;
                Err(AllocError)
            }
        }
    }

    // Whether all that was read is known to be answered.
    fn rests(&self) -> bool
        ensures { IsTrue result → IsAnswered false self.now }
    {
        self.rests
    }

    // All that was read is answered, and so it stays until more is read.
    fn rest(&mut self)
        requires { IsAnswered false self.old }
        ensures { self.new ≡ self.old }
    {
        self.rests = true;
    }

    // All is answered, and this is the end if nothing more is read.
    fn at_rest(&self, end: End) -> Wants
        requires answered { IsAnswered (is_closed end) self.now }
        ensures { IsWanted result self.now }
    {
        if !self.output().is_empty() {
            return Wants::Write;
        }
        if end == End::Input && !self.ended {
            return Wants::Read;
        }
        Wants::End(end)
    }
}

// Takes the update ahead that stands whole at the front of what is unread, if one does.
fn take_ahead(session: &mut Session, ahead: &mut VecDeque<bool>) -> Result<Option<Call>, AllocError>
    ensures ok { IfOk result (λ found. MatchOption found
        ((session.new ≡ session.old) × (ahead.new.items ≡ ahead.old.items))
        (λ call. WentAhead call session.old session.new ahead.old.items ahead.new.items)) }
    ensures err { OnErr result ((session.new ≡ session.old) × (ahead.new.items ≡ ahead.old.items)) }
{
    ahead.reserve(1)?;
    match session.ahead()? {
        Some(Update { call, silent }) => {
            ahead.push_back_reserved(silent);
            Ok(Some(call))
        }
        None => Ok(None),
    }
}

// The turn of the oldest update that was taken ahead has come, if there is one.
fn resume(session: &mut Session, ahead: &mut VecDeque<bool>)
    requires idle { session.old.asked ≡ None }
    ensures session { session.new ≡ (resumed session.old ahead.old.items).0 }
    ensures ahead { ahead.new.items ≡ (resumed session.old ahead.old.items).1 }
{
    if let Some(silent) = ahead.pop_front() {
        session.resume(silent);
    }
}
