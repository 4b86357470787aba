//! The next turn of a session.
ghost use Rattle.std.specs.Prelude.{◌≡◌, false, None};
ghost use Rattle.proto.specs.Turns.{form_of};
ghost use Rattle.proto.specs.Sessions.{shows};

use crate::front::{Found, Pending, front, lone_key};
use crate::lone_sets::{LoneSet, lone_set};
use crate::sessions::rest;
use crate::skipped_blocks::SkippedBlock;
use crate::texts::write_fault;
use crate::{Fault, Form, Keys, Look, ProtoFault, Request, Session, Step};
use std::alloc::AllocError;
use table::{Key, Op, Target};

impl Session {
    ghost use Rattle.std.specs.Prelude.{◌≡◌, ◌≤◌, ◌+◌, [], ◌∷◌, drop, length, false, true, None, Some};
    ghost use Rattle.std.specs.Prelude.{IfOk, IfSome, OnOk, OnErr, IsOkUnless};
    ghost use Rattle.table.specs.Operations.{Fits, Suits, is_update};
    ghost use Rattle.table.specs.declared.operations.Target.TheVariants.{One};
    ghost use Rattle.proto.specs.declared.front.Found.TheVariants.{Request as Requested};
    ghost use Rattle.proto.specs.declared.requests.Request.TheVariants.{Get, Bad};
    ghost use Rattle.proto.specs.Fronts.{found_at, IsWhole};
    ghost use Rattle.proto.specs.LoneSets.{IsAtFront};
    ghost use Rattle.proto.specs.Turns.{form_of};
    ghost use Rattle.proto.specs.Sessions.{by_found, by_skipped_block, by_request, looking, opened, step_of, IsOpen};

    // Passes over a refused block: its fault stands after its last byte.
    pub(crate) fn pass(&mut self, skipped_block: SkippedBlock) -> Result<Step, ProtoFault>
        requires skipped_block { self.old.skipped_block ≡ Some skipped_block }
        requires idle { self.old.asked ≡ None }
        requires open { self.old.closed ≡ false }
        ensures step { IfOk result (λ step. step ≡ step_of (by_skipped_block (Some skipped_block) self.old)) }
        ensures left { OnOk result (self.new ≡ (by_skipped_block (Some skipped_block) self.old).1) }
        ensures opens { IfOk result (λ step. IsOpen step self.new.asked) }
        ensures only_memory { IsOkUnless result ProtoFault.Memory }
        ensures err { OnErr result (self.new ≡ self.old) }
    {
        if skipped_block.left > 0 {
            return Ok(Step::Wait);
        }
        self.fail(skipped_block.fault)?;
        self.skipped_block = None;
        Ok(Step::Emit)
    }

    // Begins what stands at the front.
    pub(crate) fn begin_front(&mut self) -> Result<Step, ProtoFault>
        requires idle { self.old.asked ≡ None }
        requires open { self.old.closed ≡ false }
        ensures step { IfOk result (λ step. step ≡ step_of (by_found (found_at self.old.unread) self.old)) }
        ensures left { OnOk result (self.new ≡ (by_found (found_at self.old.unread) self.old).1) }
        ensures opens { IfOk result (λ step. IsOpen step self.new.asked) }
        ensures only_memory { IsOkUnless result ProtoFault.Memory }
        ensures err { OnErr result (self.new ≡ self.old) }
    {
        if self.unread.is_empty() {
            return Ok(Step::Wait);
        }
        match lone_key(self.alloc, self.unread.as_slice())? {
            Some(key) => self.begin_lone_get(key),
            None => self.begin_other(),
        }
    }

    // Begins what stands at the front, if that isn't found to be a `get` of one key.
    fn begin_other(&mut self) -> Result<Step, ProtoFault>
        requires idle { self.old.asked ≡ None }
        requires open { self.old.closed ≡ false }
        ensures step { IfOk result (λ step. step ≡ step_of (by_found (found_at self.old.unread) self.old)) }
        ensures left { OnOk result (self.new ≡ (by_found (found_at self.old.unread) self.old).1) }
        ensures opens { IfOk result (λ step. IsOpen step self.new.asked) }
        ensures only_memory { IsOkUnless result ProtoFault.Memory }
        ensures err { OnErr result (self.new ≡ self.old) }
    {
        match self.set_at_front()? {
            Some(set) => Ok(self.begin_lone_set(set)),
            None => self.begin_unread(),
        }
    }

    // Begins the `get` of this key alone, which stands at the front: the request that is met most, so it gets a short
    // way.
    fn begin_lone_get(&mut self, key: Key) -> Result<Step, ProtoFault>
        requires within { length key + 6 ≤ length self.old.unread }
        ensures step { IfOk result
            (λ step. step ≡ step_of (by_found (Requested (Get (key ∷ []) false) (length key + 6)) self.old)) }
        ensures left { OnOk result
            (self.new ≡ (by_found (Requested (Get (key ∷ []) false) (length key + 6)) self.old).1) }
        ensures opens { IfOk result (λ step. IsOpen step self.new.asked) }
        ensures only_memory { IsOkUnless result ProtoFault.Memory }
        ensures err { OnErr result (self.new ≡ self.old) }
    {
        match key.clone() {
            Ok(shown) => {
                self.consume(key.bytes().len() + 6);
                self.later = Keys::new();
                self.unique = false;
                Ok(self.look(key, shown))
            }
            Err(fault) => {
                drop(key);
                Err(ProtoFault::from(fault))
            }
        }
    }

    // The plain `set` that stands whole at the front, if no line was read there before.
    pub(crate) fn set_at_front(&self) -> Result<Option<LoneSet>, AllocError>
        ensures { IfOk result (λ found. IfSome found (λ set. IsAtFront set self.now.unread)) }
    {
        if self.pending.is_some() {
            return Ok(None);
        }
        lone_set(self.alloc, self.unread.as_slice())
    }

    // Begins this `set`, which stands at the front: the update that is met most, so it gets a short way too.
    fn begin_lone_set(&mut self, set: LoneSet) -> Step
        requires front { IsAtFront set self.old.unread }
        ensures step { result ≡ step_of (by_found (found_at self.old.unread) self.old) }
        ensures left { self.new ≡ (by_found (found_at self.old.unread) self.old).1 }
        ensures opens { IsOpen result self.new.asked }
    {
        let LoneSet {
            key,
            flags,
            silent,
            block,
            end,
        } = set;
        self.begin_update(Target::One(key), Op::Set(flags, block), silent, end)
    }

    // Begins what the unread bytes spell.
    fn begin_unread(&mut self) -> Result<Step, ProtoFault>
        requires idle { self.old.asked ≡ None }
        requires open { self.old.closed ≡ false }
        ensures step { IfOk result (λ step. step ≡ step_of (by_found (found_at self.old.unread) self.old)) }
        ensures left { OnOk result (self.new ≡ (by_found (found_at self.old.unread) self.old).1) }
        ensures opens { IfOk result (λ step. IsOpen step self.new.asked) }
        ensures only_memory { IsOkUnless result ProtoFault.Memory }
        ensures err { OnErr result (self.new ≡ self.old) }
    {
        match front(self.alloc, &mut self.pending, self.unread.as_slice())? {
            Found::Request(request, n) => self.begin(request, n),
            Found::Refused(skipped_block) => {
                drop(self.pending.take());
                self.unread.clear();
                rest(self.alloc, &mut self.unread);
                self.skipped_block = Some(skipped_block);
                Ok(Step::Wait)
            }
            Found::Nothing => Ok(Step::Wait),
        }
    }

    // Begins the request that the first n unread bytes spell.
    fn begin(&mut self, request: Request, n: usize) -> Result<Step, ProtoFault>
        requires within { n ≤ length self.old.unread }
        requires whole { IsWhole request }
        requires idle { self.old.asked ≡ None }
        requires open { self.old.closed ≡ false }
        ensures step { IfOk result (λ step. step ≡ step_of (by_found (Requested request n) self.old)) }
        ensures left { OnOk result (self.new ≡ (by_found (Requested request n) self.old).1) }
        ensures opens { IfOk result (λ step. IsOpen step self.new.asked) }
        ensures only_memory { IsOkUnless result ProtoFault.Memory }
        ensures err { OnErr result (self.new ≡ self.old) }
    {
        match request {
            Request::Bad(fault) => {
                self.fail(fault)?;
                self.consume(n);
                Ok(Step::Emit)
            }
            Request::Get(keys, unique) => self.begin_get(keys, unique, n),
            Request::Store(key, op, silent) | Request::Arith(key, op, silent) => {
                Ok(self.begin_update(Target::One(key), op, silent, n))
            }
            Request::Delete(key, silent) => {
                Ok(self.begin_update(Target::One(key), Op::Delete, silent, n))
            }
            Request::Flush(silent) => { Ok(self.begin_update(Target::All, Op::Flush, silent, n)) }
            Request::Quit => {
                self.consume(n);
                self.closed = true;
                Ok(Step::Close)
            }
        }
    }

    // Begins the get of these keys, which the first n unread bytes spell.
    fn begin_get(&mut self, keys: Keys, unique: bool, n: usize) -> Result<Step, ProtoFault>
        requires within { n ≤ length self.old.unread }
        requires some { 1 ≤ length keys }
        ensures step { IfOk result (λ step. step ≡ step_of (by_found (Requested (Get keys unique) n) self.old)) }
        ensures left { OnOk result (self.new ≡ (by_found (Requested (Get keys unique) n) self.old).1) }
        ensures opens { IfOk result (λ step. IsOpen step self.new.asked) }
        ensures only_memory { IsOkUnless result ProtoFault.Memory }
        ensures err { OnErr result (self.new ≡ self.old) }
    {
        let mut keys = keys;
        match keys.pop(self.alloc) {
            Ok(Some((key, shown))) => {
                self.consume(n);
                self.later = keys;
                self.unique = unique;
                Ok(self.look(key, shown))
            }
            Ok(None) => unreachable!(),
            Err(fault) => {
                drop(keys);
                Err(ProtoFault::from(fault))
            }
        }
    }

    // Writes a fault's line. Some faults end the stream.
    fn fail(&mut self, fault: Fault) -> Result<(), ProtoFault>
        requires open { self.old.closed ≡ false }
        ensures left { OnOk result (self.new ≡ (by_request (Bad fault) self.old).1) }
        ensures only_memory { IsOkUnless result ProtoFault.Memory }
        ensures err { OnErr result (self.new ≡ self.old) }
    {
        write_fault(&mut self.out, fault)?;
        self.closed = fault == Fault::LineTooLong;
        Ok(())
    }

    // Opens the update that the first n unread bytes spell.
    fn begin_update(&mut self, target: Target, op: Op, silent: bool, n: usize) -> Step
        requires within { n ≤ length self.old.unread }
        requires fits { Fits op }
        requires aimed { Suits target op }
        requires update { is_update op ≡ true }
        ensures step { result ≡ Step.Call target op }
        ensures left { self.new
            ≡ (opened target op (form_of silent) (record self.old { unread = drop n self.old.unread })).1 }
        ensures opens { IsOpen result self.new.asked }
    {
        self.consume(n);
        drop(self.asked.replace(update_form(silent)));
        Step::Call(target, op)
    }

    // Opens the read of a key that was taken off the get at hand.
    pub(crate) fn look(&mut self, key: Key, shown: Key) -> Step
        requires same { shown ≡ key }
        ensures step { result ≡ Step.Call (One key) Op.Read }
        ensures left { self.new ≡ looking key self.old }
        ensures opens { IsOpen result self.new.asked }
    {
        drop(
            self.asked.replace(Form::Show(Look {
                key: shown,
                unique: self.unique,
                last: self.later.is_empty(),
            })),
        );
        Step::Call(Target::One(key), Op::Read)
    }

    // Takes the bytes of a request off the front.
    pub(crate) fn consume(&mut self, n: usize)
        requires { n ≤ length self.old.unread }
        ensures { self.new ≡ record self.old { unread = drop n self.old.unread } }
    {
        forget(&mut self.pending);
        self.unread.advance(n);
        rest(self.alloc, &mut self.unread);
    }
}

// Forgets what was found out about a front. Mostly there is nothing to forget, and then nothing is moved.
fn forget(pending: &mut Option<Pending>)
    ensures { pending.new ≡ None }
{
    if pending.is_some() {
        drop(pending.take());
    }
}

// The form of an update's answer.
pub(crate) fn update_form(silent: bool) -> Form
    ensures form { result ≡ form_of silent }
    ensures update { shows result ≡ false }
{
    if silent { Form::Silent } else { Form::Status }
}
