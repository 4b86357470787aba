//! A connection at a server's seats, without a thread: each of its calls is refused or answered by a look at once, or
//! sent at a seat, whose reply is taken later. Updates that follow one another may be sent before the first has its
//! reply.
ghost use Rattle.std.specs.Prelude.{◌≡◌, true, IfErr, IfOk, Some, MatchOption, OnErr, OnOk};
ghost use Rattle.table.specs.declared.operations.Call.{Call};
ghost use Rattle.proto.specs.Turns.{Outcome, Refused};
ghost use Rattle.faces.specs.Histories.{IsLater};
ghost use Rattle.faces.specs.Readers.{HasLookedAtMostOnce};
ghost use Rattle.serving.specs.Connections.{HasOutcome, MayRefuse};
ghost use Rattle.serving.specs.Serving.{CameTo};
ghost use Rattle.serving.specs.Wanted.{IsAsking};
ghost use Rattle.serving.specs.declared.endings.ServeFault.TheVariants.{Memory};
ghost use Rattle.seats.specs.declared.client_connections.CallStanding.TheVariants.{Idle, Over, Reading, Unsent};
ghost use Rattle.seats.specs.declared.client_connections.Pause.TheVariants.{Seat};
ghost use Rattle.seats.specs.SeatPools.{HasNoFault, HasSameReader, HasSentNothing};
ghost use Rattle.seats.specs.ClientConnections.{
  HasCause,
  HasLookedFor,
  HoldsAt,
  HoldsFree,
  IsPeeked,
  next_ahead,
  next_standing,
};

use crate::ahead::{leave_all, open_ahead};
use crate::heard_seats::HeardSeats;
use crate::outcomes::{hand_on, is_refused, settle};
use crate::seat_pools::SeatPool;
use crate::submitters::Submitter;
use rail::Told;
use serving::{Connection, ServeFault, Wants};
use std::alloc::{AllocError, Global};
use std::collections::VecDeque;
use std::marker::Model;
use std::mem;
use std::sync::Wait;
use table::Call;

/// Why a client goes no further, or its connection.
#[derive(Clone, Copy, Debug, PartialEq, Eq)]
pub enum Pause {
    /// All is answered and written: it wants input.
    Input,
    /// Output is due, which is to be written.
    Output,
    /// Output is due, and the server may not put it out now. Only a client with a socket says so.
    Lease,
    /// Its call waits for a free seat.
    Seat,
    /// Its call was sent, now or before, perhaps with updates after it, and the reply isn't here yet.
    Reply,
    /// It can go on, once others have had their turn.
    Turn,
    /// It goes no further: all is answered and written, and nothing more is wanted. A client with a socket says so too
    /// if it has failed, or nobody reads.
    Over,
}

/// Where a client connection stands.
#[derive(Drop)]
pub enum CallStanding {
    /// No call waits.
    Idle,
    /// It wants input.
    Reading,
    /// This call waits for a seat.
    Unsent(Call),
    /// The call that waits, the longest if others do too, is open at this seat.
    Sent(Submitter),
    /// A call got no reply, or memory was refused: no further call is made.
    Over,
}

/// The most calls that are answered by looks or refused in one go, so that others' connections aren't held for long.
pub const MOST_CALLS: usize = 32;

/// A connection at a server's seats: it is fed with input, makes the calls of that, one after another, and says what it
/// waits for. While an update is open, the updates that come next may be sent too, each at a seat of its own; they are
/// sent and answered in turn. Contracts see the connection, where it stands, the seats of the updates that were sent
/// ahead, those whose replies it has had, and what its reader had seen at first and when its last call had its reply
/// (`ClientConnectionState`).
#[derive(Drop)]
pub struct ClientConnection {
    // The fields lie in this order: what a call by a look touches lies close together.
    first: Told,
    seen: Told,
    connection: Connection,
    standing: CallStanding,
    // The seats of the calls that were sent after the one at which it stands, in turn.
    ahead: VecDeque<Submitter>,
    // The seats whose replies it has had, for contracts alone.
    heard: HeardSeats,
}

impl Model for ClientConnection {
    ghost use Rattle.std.specs.Coded.{codes};
    ghost use Rattle.atomic_table.specs.Seated.{table_id_coded};
    ghost use Rattle.logbook.specs.Pages.{book_coded};
    ghost use Rattle.table.specs.Items.{coded_item};
    ghost use Rattle.versions.specs.Stores.{coded_items};
    ghost use Rattle.seats.specs.ClientConnections.{ClientConnectionState, IsClientConnection};

    ghost Value = { ClientConnectionState };

    ghost coded = { Prim.hlevel (codes, coded_item, coded_items, book_coded, table_id_coded) };

    ghost view = { λ t. record {
      connected = t.connection;
      standing = t.standing;
      ahead = t.ahead.items;
      heard = t.heard.all;
      first = t.first;
      seen = t.seen;
    } };

    ghost invariant = { λ t.
        IsClientConnection t.connection t.standing t.ahead.items t.heard.all t.first t.seen };
}

impl ClientConnection {
    ghost use Rattle.std.specs.Prelude.{◌≡◌, ◌⊎◌, ◌≤◌, ◌↔◌, ◌++◌, ℕ, List, [], true, take, drop, length};
    ghost use Rattle.std.specs.Prelude.{None, OnOk, OnErr, IfErr, IfNone, IfOk, IsErr, IfSome, IsSome, IsTrue};
    ghost use Rattle.std.specs.Prelude.{MatchBool, MatchOption, MatchResult};
    ghost use Rattle.faces.specs.Histories.{IsLater};
    ghost use Rattle.serving.specs.Connections.{IsBegun};
    ghost use Rattle.seats.specs.SeatPools.{HasNoFault, HasSameReader, HasSentNothing};
    ghost use Rattle.seats.specs.ClientConnections.{
      AreAllAnswered,
      HasCause,
      HasGone,
      HasGoneByLooks,
      HasHeardInTurn,
      HasLooked,
      HasLookedOn,
      HasRefusedNone,
      HasSentInTurn,
      HoldsStore,
      IsFurther,
    };
    ghost use Rattle.seats.specs.ClientConnections.{HasHeard, IsSameBut, LeavesCall, StandsAt, begun, fed, seats_open};
    ghost use Rattle.seats.specs.Submitters.{Submitting};
    ghost use Rattle.seats.specs.declared.client_connections.CallStanding.TheVariants.{Idle, Reading, Over};

    /// A client's connection of which nothing was read. It allocates nothing.
    pub fn new(alloc: Global, pool: &SeatPool) -> ClientConnection
        ensures { result ≡ begun pool.now.seen }
    {
        ClientConnection {
            connection: Connection::new(alloc),
            standing: CallStanding::Idle,
            ahead: VecDeque::new(alloc),
            heard: HeardSeats::new(),
            first: pool.tell(),
            seen: pool.tell(),
        }
    }

    /// Whatever was done: the calls are the first ones of the bytes that were read, each with what it came to, and what
    /// was written, with what is due, is a beginning of what is due for them. Each call came to something, in order: to
    /// the reply of a clean look, or to what was answered at the next of the seats that were heard, at which it was
    /// open, and each of these has seen what the one before it had seen; or to a refusal, if it stores, which leaves
    /// what was seen as it was.
    pub fn so_far(&self)
        ensures begun { (more : List ℕ) → IsBegun self.now.connected (self.now.connected.read ++ more) }
        ensures answered { AreAllAnswered self.now.first self.now.connected.calls self.now.connected.outcomes
            self.now.heard self.now.seen }
        ensures stands { StandsAt self.now.standing self.now.ahead self.now.connected self.now.seen.instance }
    {
        self.connection.so_far();
    }

    /// Whether it wants input.
    pub fn wants_input(&self) -> bool
        ensures { IsTrue result ↔ (self.now.standing ≡ Reading) }
    {
        matches!(self.standing, CallStanding::Reading)
    }

    /// Takes a piece of input, which is copied once. Refused if memory is out, and then the piece counts as not read.
    pub fn feed(&mut self, piece: &[u8]) -> Result<(), AllocError>
        requires reads { self.old.standing ≡ Reading }
        ensures ok { OnOk result (self.new ≡ fed self.old piece.now) }
        ensures err { OnErr result (self.new ≡
            record self.old { connected = record self.old.connected { failed = true } }) }
    {
        self.connection.feed(piece)?;
        stand_idle(&mut self.standing);
        Ok(())
    }

    /// The input has ended.
    pub fn input_ended(&mut self)
        requires reads { self.old.standing ≡ Reading }
        ensures { self.new ≡
            record self.old { connected = record self.old.connected { ended = true }; standing = Idle } }
    {
        self.connection.input_ended();
        stand_idle(&mut self.standing);
    }

    /// Goes on as far as it can: it makes the calls of what was read, one after another, each by a look at once, or at
    /// a free seat of the pool, until it waits for something. A call that stores is refused while the pool has no room,
    /// and isn't made then. A call gets no reply if the server is marked or gone: that, or a refusal of memory, is what
    /// a fault comes from. After a fault no further call is made, and it answers a fault from then on; what is due may
    /// still be written. If it waits for the reply to an update, the updates that come next are sent too, each at a
    /// free seat, as many as the pool lets be in flight.
    pub fn advance<R: Wait>(&mut self, rt: &R, pool: &mut SeatPool) -> Result<Pause, ServeFault>
        requires known { IsLater self.old.seen pool.old.seen }
        ensures known { IsLater self.new.seen pool.new.seen }
        ensures later { IsLater pool.old.seen pool.new.seen }
        ensures first { self.new.first ≡ self.old.first }
        ensures further { IsFurther self.old.connected self.new.connected }
        ensures went { IfOk result (λ went. HasGone went self.new) }
        ensures sent { HasSentInTurn self.old self.new pool.old pool.new }
        ensures heard { self.new.heard ≡ self.old.heard }
        ensures unfailed { OnOk result (HasNoFault pool.old pool.new) }
        ensures cause { IfErr result
            (λ fault. (self.old.standing ≡ Over) ⊎ HasCause fault self.new.connected pool.old pool.new) }
        // No reply of a look was kept, and no look is forgotten: each reply to its calls is of a look of its own, at
        // the face that stood. Beside these at most one look was made, for the call that it leaves waiting, or at which
        // a fault came.
        ensures looked { MatchResult result
            (λ went. HasGoneByLooks went self.old.connected self.new.connected pool.old pool.new)
            (λ _. HasLookedOn self.old.connected self.new.connected pool.old pool.new) }
        // Without a limit no store is refused.
        ensures refused { pool.old.limit ≡ None → HasRefusedNone self.old.connected self.new.connected }
        ensures over { OnErr result (self.new.standing ≡ Over) }
        ensures spent { self.old.standing ≡ Over → IsErr result × (self.new ≡ self.old) × (pool.new ≡ pool.old) }
    {
        match self.advance_alone(rt, pool)? {
            Pause::Reply => {
                self.go_ahead(rt, pool)?;
                Ok(Pause::Reply)
            }
            went => Ok(went),
        }
    }

    // The same, but nothing is sent ahead.
    fn advance_alone<R: Wait>(&mut self, rt: &R, pool: &mut SeatPool) -> Result<Pause, ServeFault>
        requires known { IsLater self.old.seen pool.old.seen }
        ensures known { IsLater self.new.seen pool.new.seen }
        ensures later { IsLater pool.old.seen pool.new.seen }
        ensures first { self.new.first ≡ self.old.first }
        ensures further { IsFurther self.old.connected self.new.connected }
        ensures went { IfOk result (λ went. HasGone went self.new) }
        ensures sent { HasSentInTurn self.old self.new pool.old pool.new }
        ensures heard { self.new.heard ≡ self.old.heard }
        ensures unfailed { OnOk result (HasNoFault pool.old pool.new) }
        ensures cause { IfErr result
            (λ fault. (self.old.standing ≡ Over) ⊎ HasCause fault self.new.connected pool.old pool.new) }
        // No reply of a look was kept, and no look is forgotten: each reply to its calls is of a look of its own, at
        // the face that stood. Beside these at most one look was made, for the call that it leaves waiting, or at which
        // a fault came.
        ensures looked { MatchResult result
            (λ went. HasGoneByLooks went self.old.connected self.new.connected pool.old pool.new)
            (λ _. HasLookedOn self.old.connected self.new.connected pool.old pool.new) }
        ensures over { OnErr result (self.new.standing ≡ Over) }
        ensures spent { self.old.standing ≡ Over → IsErr result × (self.new ≡ self.old) × (pool.new ≡ pool.old) }
    {
        match &self.standing {
            CallStanding::Idle => self.make_calls(rt, pool),
            CallStanding::Reading => Ok(Pause::Input),
            CallStanding::Unsent(call) => {
                if is_refused(pool, call) {
                    self.pass_over(rt, pool)
                } else {
                    self.send(rt, pool)
                }
            }
            CallStanding::Sent(_) => Ok(Pause::Reply),
            CallStanding::Over => Err(ServeFault::Call),
        }
    }

    /// Takes the replies to the calls that were sent, as many as have come, that to the oldest call first, and says
    /// whether there was one: its seat is free then.
    pub fn receive_replies<R: Wait>(
        &mut self,
        rt: &R,
        pool: &mut SeatPool,
    ) -> Result<bool, ServeFault>
        requires known { IsLater self.old.seen pool.old.seen }
        ensures known { IsLater self.new.seen pool.new.seen }
        ensures later { IsLater pool.old.seen pool.new.seen }
        ensures first { self.new.first ≡ self.old.first }
        ensures further { IsFurther self.old.connected self.new.connected }
        ensures looks { pool.new.looks ≡ pool.old.looks }
        ensures unsent { HasSentNothing pool.old pool.new }
        ensures heard { IfOk result (λ heard. MatchBool heard (HasHeard self.old self.new) (self.new ≡ self.old)) }
        ensures in_turn { OnOk result (HasHeardInTurn self.old self.new pool.old pool.new
            (seats_open self.new.standing self.new.ahead)) }
        ensures before_fault { OnErr result
            ((left : List Submitting) × HasHeardInTurn self.old self.new pool.old pool.new left) }
        ensures unfailed { OnOk result (HasNoFault pool.old pool.new) }
        ensures cause { IfErr result (λ fault. HasCause fault self.new.connected pool.old pool.new) }
        ensures over { OnErr result (self.new.standing ≡ Over) }
    {
        let mut any = false;
        for _ in 0..=self.ahead.len() {
            if !self.receive_reply(rt, pool)? {
                return Ok(any);
            }
            any = true;
        }
        Ok(any)
    }

    // Takes the reply to the oldest call that was sent, if it has come, and says whether it did.
    fn receive_reply<R: Wait>(&mut self, rt: &R, pool: &mut SeatPool) -> Result<bool, ServeFault>
        requires known { IsLater self.old.seen pool.old.seen }
        ensures known { IsLater self.new.seen pool.new.seen }
        ensures later { IsLater pool.old.seen pool.new.seen }
        ensures first { self.new.first ≡ self.old.first }
        ensures further { IsFurther self.old.connected self.new.connected }
        ensures looks { pool.new.looks ≡ pool.old.looks }
        ensures unsent { HasSentNothing pool.old pool.new }
        ensures heard { IfOk result (λ heard. MatchBool heard
            (HasHeard self.old self.new ×
            HasHeardInTurn self.old self.new pool.old pool.new (seats_open self.new.standing self.new.ahead))
            (self.new ≡ self.old)) }
        ensures unheard { OnErr result (HasHeardInTurn self.old self.new pool.old pool.new
            (seats_open self.old.standing self.old.ahead)) }
        ensures unfailed { OnOk result (HasNoFault pool.old pool.new) }
        ensures cause { IfErr result (λ fault. HasCause fault self.new.connected pool.old pool.new) }
        ensures over { OnErr result (self.new.standing ≡ Over) }
    {
        let CallStanding::Sent(submitter) = &mut self.standing else {
            return Ok(false);
        };
        let heard = self.heard.plus(submitter);
        match pool.take_reply(rt, submitter) {
            Ok(None) => Ok(false),
            Ok(Some(reply)) => {
                give_back(&mut self.standing, pool);
                hand_on(&mut self.connection, &mut self.seen, pool, reply)?;
                self.heard = heard;
                stand_at(&mut self.standing, next_standing(&mut self.ahead));
                Ok(true)
            }
            Err(_) => {
                give_back(&mut self.standing, pool);
                Err(ServeFault::Call)
            }
        }
    }

    /// The output that is due.
    pub fn output(&self) -> &[u8]
        ensures { result.now ≡ self.now.connected.due }
    {
        self.connection.output()
    }

    /// The first n bytes of the output were written.
    pub fn written(&mut self, n: usize)
        requires { n ≤ length self.old.connected.due }
        ensures { self.new ≡ record self.old {
          connected = record self.old.connected {
            due = drop n self.old.connected.due;
            written = self.old.connected.written ++ take n self.old.connected.due;
          };
        } }
    {
        self.connection.written(n);
    }

    /// Ends it. Its seats, if it has any, go back to the pool, which takes the replies that nobody waits for any more.
    pub fn leave(self, pool: &mut SeatPool)
        requires known { IsLater self.seen pool.old.seen }
        ensures reader { HasSameReader pool.old pool.new }
        ensures unsent { HasSentNothing pool.old pool.new }
    {
        let ClientConnection {
            connection,
            standing,
            ahead,
            heard,
            first,
            seen,
        } = self;
        drop(connection);
        drop(heard);
        drop(first);
        drop(seen);
        leave_one(standing, pool);
        leave_all(ahead, pool);
    }

    // Makes calls while no call waits.
    fn make_calls<R: Wait>(&mut self, rt: &R, pool: &mut SeatPool) -> Result<Pause, ServeFault>
        requires idle { self.old.standing ≡ Idle }
        requires none { self.old.connected.waiting ≡ [] }
        requires known { IsLater self.old.seen pool.old.seen }
        ensures known { IsLater self.new.seen pool.new.seen }
        ensures later { IsLater pool.old.seen pool.new.seen }
        ensures first { self.new.first ≡ self.old.first }
        ensures further { IsFurther self.old.connected self.new.connected }
        ensures went { IfOk result (λ went. HasGone went self.new) }
        ensures sent { HasSentInTurn self.old self.new pool.old pool.new }
        ensures heard { self.new.heard ≡ self.old.heard }
        ensures unfailed { OnOk result (HasNoFault pool.old pool.new) }
        ensures cause { IfErr result (λ fault. HasCause fault self.new.connected pool.old pool.new) }
        ensures looked { MatchResult result
            (λ went. HasGoneByLooks went self.old.connected self.new.connected pool.old pool.new)
            (λ _. HasLookedOn self.old.connected self.new.connected pool.old pool.new) }
        ensures over { OnErr result (self.new.standing ≡ Over) }
    {
        for _ in 0..MOST_CALLS {
            match self.step(pool)? {
                None => {}
                Some(Pause::Seat) => return self.send(rt, pool),
                Some(went) => return Ok(went),
            }
        }
        Ok(Pause::Turn)
    }

    // Refuses the call that waits for a seat, and goes on.
    fn pass_over<R: Wait>(&mut self, rt: &R, pool: &mut SeatPool) -> Result<Pause, ServeFault>
        requires store { HoldsStore self.old.standing }
        requires limit { IsSome pool.old.limit }
        requires known { IsLater self.old.seen pool.old.seen }
        ensures known { IsLater self.new.seen pool.new.seen }
        ensures later { IsLater pool.old.seen pool.new.seen }
        ensures first { self.new.first ≡ self.old.first }
        ensures further { IsFurther self.old.connected self.new.connected }
        ensures went { IfOk result (λ went. HasGone went self.new) }
        ensures sent { HasSentInTurn self.old self.new pool.old pool.new }
        ensures heard { self.new.heard ≡ self.old.heard }
        ensures unfailed { OnOk result (HasNoFault pool.old pool.new) }
        ensures cause { IfErr result (λ fault. HasCause fault self.new.connected pool.old pool.new) }
        ensures looked { MatchResult result
            (λ went. HasGoneByLooks went self.old.connected self.new.connected pool.old pool.new)
            (λ _. HasLookedOn self.old.connected self.new.connected pool.old pool.new) }
        ensures over { OnErr result (self.new.standing ≡ Over) }
    {
        refuse(&mut self.connection, &mut self.standing)?;
        self.make_calls(rt, pool)
    }

    // The connection's next step. None if it was a call that a look answered, or that was refused.
    fn step(&mut self, pool: &mut SeatPool) -> Result<Option<Pause>, ServeFault>
        requires idle { self.old.standing ≡ Idle }
        requires known { IsLater self.old.seen pool.old.seen }
        ensures known { IsLater self.new.seen pool.new.seen }
        ensures later { IsLater pool.old.seen pool.new.seen }
        ensures first { self.new.first ≡ self.old.first }
        ensures further { IsFurther self.old.connected self.new.connected }
        ensures went { IfOk result
            (λ found. MatchOption found (self.new.standing ≡ Idle) (λ went. HasGone went self.new)) }
        ensures unsent { HasSentNothing pool.old pool.new }
        ensures sent { HasSentInTurn self.old self.new pool.old pool.new }
        ensures rests { IfOk result (λ found. IfNone found (self.new.connected.waiting ≡ [])) }
        ensures heard { self.new.heard ≡ self.old.heard }
        ensures unfailed { OnOk result (HasNoFault pool.old pool.new) }
        ensures cause { IfErr result (λ fault. HasCause fault self.new.connected pool.old pool.new) }
        ensures looked { MatchResult result
            (λ found. MatchOption found (HasLooked self.old.connected self.new.connected pool.old pool.new)
            (λ went. HasGoneByLooks went self.old.connected self.new.connected pool.old pool.new))
            (λ _. HasLookedOn self.old.connected self.new.connected pool.old pool.new) }
        ensures over { OnErr result (self.new.standing ≡ Over) }
    {
        match self.connection.next() {
            Ok(Wants::Call(target, op)) => ask(
                &mut self.connection,
                &mut self.standing,
                &mut self.seen,
                pool,
                Call { target, op },
            ),
            Ok(Wants::Write) => Ok(Some(Pause::Output)),
            Ok(Wants::Read) => {
                stand_reading(&mut self.standing);
                Ok(Some(Pause::Input))
            }
            Ok(Wants::End(_)) => Ok(Some(Pause::Over)),
            Err(_) => {
                stand_at(&mut self.standing, CallStanding::Over);
                Err(ServeFault::Memory)
            }
        }
    }

    // Sends the call that waits at a free seat, if there is one.
    fn send<R: Wait>(&mut self, rt: &R, pool: &mut SeatPool) -> Result<Pause, ServeFault>
        requires unsent { HasGone Pause.Seat self.old }
        requires known { IsLater self.old.seen pool.old.seen }
        ensures same { self.new ≡ record self.old { standing = self.new.standing } }
        ensures pool { HasSameReader pool.old pool.new }
        ensures sent { HasSentInTurn self.old self.new pool.old pool.new }
        ensures unfailed { OnOk result (HasNoFault pool.old pool.new) }
        ensures cause { IfErr result (λ fault. HasCause fault self.new.connected pool.old pool.new) }
        ensures waits { IfOk result (λ went. LeavesCall went) }
        ensures went { IfOk result (λ went. HasGone went self.new) }
        ensures over { OnErr result (self.new.standing ≡ Over) }
    {
        // What waits is known by where it stands.
        let _ = &self.standing;
        let Some(mut submitter) = pool.take_free() else {
            return Ok(Pause::Seat);
        };
        let call = unsent(mem::replace(&mut self.standing, CallStanding::Over));
        match pool.submit(rt, &mut submitter, call) {
            Ok(()) => {
                stand_at(&mut self.standing, CallStanding::Sent(submitter));
                Ok(Pause::Reply)
            }
            Err(_) => {
                pool.put(submitter);
                Err(ServeFault::Call)
            }
        }
    }

    // Sends the updates that come next, as long as there are some, and free seats, and no more are sent ahead than may
    // be.
    fn go_ahead<R: Wait>(&mut self, rt: &R, pool: &mut SeatPool) -> Result<(), ServeFault>
        requires sent { HasGone Pause.Reply self.old }
        requires known { IsLater self.old.seen pool.old.seen }
        ensures same { IsSameBut self.old self.new }
        ensures pool { HasSameReader pool.old pool.new }
        ensures on { HasSentInTurn self.old self.new pool.old pool.new }
        ensures unfailed { OnOk result (HasNoFault pool.old pool.new) }
        ensures cause { IfErr result (λ fault. HasCause fault self.new.connected pool.old pool.new) }
        ensures sent { OnOk result (HasGone Pause.Reply self.new) }
        ensures over { OnErr result (self.new.standing ≡ Over) }
    {
        for _ in self.ahead.len()..pool.most_ahead() {
            if !self.send_ahead(rt, pool)? {
                return Ok(());
            }
        }
        Ok(())
    }

    // Sends the update that comes next, if one does, and there is a free seat. Whether it did.
    fn send_ahead<R: Wait>(&mut self, rt: &R, pool: &mut SeatPool) -> Result<bool, ServeFault>
        requires sent { HasGone Pause.Reply self.old }
        requires known { IsLater self.old.seen pool.old.seen }
        ensures same { IsSameBut self.old self.new }
        ensures pool { HasSameReader pool.old pool.new }
        ensures on { HasSentInTurn self.old self.new pool.old pool.new }
        ensures unfailed { OnOk result (HasNoFault pool.old pool.new) }
        ensures cause { IfErr result (λ fault. HasCause fault self.new.connected pool.old pool.new) }
        ensures sent { OnOk result (HasGone Pause.Reply self.new) }
        ensures over { OnErr result (self.new.standing ≡ Over) }
    {
        match open_ahead(rt, pool, &mut self.connection, &mut self.ahead) {
            Ok(sent) => Ok(sent),
            Err(fault) => {
                leave_one(mem::replace(&mut self.standing, CallStanding::Over), pool);
                Err(fault)
            }
        }
    }
}

impl ClientConnection {
    ghost use Rattle.std.specs.Prelude.{◌≡◌, [], MatchOption, length, suc};
    ghost use Rattle.seats.specs.ClientConnections.{seats_open};

    /// How many updates were sent after the call that waits for its reply. None if no call was sent.
    pub fn in_flight(&self) -> Option<usize>
        ensures { MatchOption result (seats_open self.now.standing self.now.ahead ≡ [])
            (λ n. length (seats_open self.now.standing self.now.ahead) ≡ suc n) }
    {
        match self.standing {
            CallStanding::Sent(_) => Some(self.ahead.len()),
            _ => None,
        }
    }
}

// Refuses the call that waits.
fn refuse(connection: &mut Connection, standing: &mut CallStanding) -> Result<(), ServeFault>
    requires may_refuse { MayRefuse connection.old.waiting }
    ensures ok { OnOk result (HasOutcome Refused connection.old connection.new × (standing.new ≡ Idle)) }
    ensures err { OnErr result ((standing.new ≡ Over) × (connection.new ≡ record connection.old { failed = true })) }
    ensures fault { IfErr result (λ fault. fault ≡ Memory) }
{
    match connection.refuse() {
        Ok(()) => {
            stand_at(standing, CallStanding::Idle);
            Ok(())
        }
        Err(_) => {
            stand_at(standing, CallStanding::Over);
            Err(ServeFault::Memory)
        }
    }
}

// Has the call that waits come to something at once. If it doesn't, it waits for a seat.
fn ask(
    connection: &mut Connection,
    standing: &mut CallStanding,
    seen: &mut Told,
    pool: &mut SeatPool,
    call: Call,
) -> Result<Option<Pause>, ServeFault>
    requires idle { standing.old ≡ Idle }
    requires asking { IsAsking call.target call.op connection.old }
    requires known { IsLater seen.old pool.old.seen }
    ensures known { IsLater seen.new pool.new.seen }
    ensures later { IsLater pool.old.seen pool.new.seen }
    ensures ok { IfOk result (λ found. MatchOption found
        ((outcome : Outcome) × CameTo IsPeeked seen.old call outcome seen.new ×
        HasOutcome outcome connection.old connection.new × (standing.new ≡ Idle))
        (λ went. (went ≡ Seat) × (standing.new ≡ Unsent call) × (connection.new ≡ connection.old) ×
        (seen.new ≡ seen.old))) }
    ensures looked { IfOk result (λ found. MatchOption found
        ((outcome : Outcome) × HasOutcome outcome connection.old connection.new ×
        HasLookedFor call outcome pool.old pool.new)
        (λ went. (went ≡ Seat) × (connection.new ≡ connection.old))) }
    ensures once { HasLookedAtMostOnce pool.old.looks pool.new.looks }
    ensures unsent { HasSentNothing pool.old pool.new }
    ensures unfailed { OnOk result (HasNoFault pool.old pool.new) }
    ensures cause { IfErr result (λ fault. HasCause fault connection.new pool.old pool.new) }
    ensures err { OnErr result ((standing.new ≡ Over) × (seen.new ≡ seen.old) ×
        (connection.new ≡ record connection.old { failed = connection.new.failed })) }
{
    match settle(connection, seen, pool, &call) {
        Ok(true) => {
            drop(call);
            Ok(None)
        }
        Ok(false) => {
            stand_at(standing, CallStanding::Unsent(call));
            Ok(Some(Pause::Seat))
        }
        Err(fault) => {
            drop(call);
            stand_at(standing, CallStanding::Over);
            Err(fault)
        }
    }
}

// The call that waits for a seat.
fn unsent(standing: CallStanding) -> Call
    requires { (call : Call) × (standing ≡ Unsent call) }
    ensures { standing ≡ Unsent result }
{
    match standing {
        CallStanding::Unsent(call) => call,
        other => {
            drop(other);
            unreachable!()
        }
    }
}

// No call waits from now on. It wanted input, so nothing is moved out.
fn stand_idle(standing: &mut CallStanding)
    requires { standing.old ≡ Reading }
    ensures { standing.new ≡ Idle }
{
    *standing = CallStanding::Idle;
}

// From now on it wants input. No call waited, so nothing is moved out.
fn stand_reading(standing: &mut CallStanding)
    requires { standing.old ≡ Idle }
    ensures { standing.new ≡ Reading }
{
    *standing = CallStanding::Reading;
}

// From now on it stands so. What it stood at is dropped, whatever that was.
fn stand_at(standing: &mut CallStanding, next: CallStanding)
    ensures { standing.new ≡ next }
{
    drop(mem::replace(standing, next));
}

// Gives the seat back to the pool, if it has one.
fn give_back(standing: &mut CallStanding, pool: &mut SeatPool)
    requires { HoldsFree pool.old.seen.instance standing.old }
    ensures standing { standing.new ≡ Over }
    ensures pool { HasSameReader pool.old pool.new }
    ensures unsent { HasSentNothing pool.old pool.new }
    ensures unfailed { HasNoFault pool.old pool.new }
{
    match mem::replace(standing, CallStanding::Over) {
        CallStanding::Sent(submitter) => pool.put(submitter),
        other => drop(other),
    }
}

// Where it stands next, once the call at which it stood has its reply.
fn next_standing(ahead: &mut VecDeque<Submitter>) -> CallStanding
    ensures standing { result ≡ next_standing ahead.old.items }
    ensures ahead { ahead.new.items ≡ next_ahead ahead.old.items }
{
    match ahead.pop_front() {
        Some(submitter) => CallStanding::Sent(submitter),
        None => CallStanding::Idle,
    }
}

// Gives its seat, if it has one, to the pool, which takes the reply that nobody waits for any more.
fn leave_one(standing: CallStanding, pool: &mut SeatPool)
    requires { HoldsAt pool.old.seen.instance standing }
    ensures reader { HasSameReader pool.old pool.new }
    ensures unsent { HasSentNothing pool.old pool.new }
    ensures unfailed { HasNoFault pool.old pool.new }
{
    match standing {
        CallStanding::Sent(submitter) => {
            pool.leave(submitter);
        }
        other => drop(other),
    }
}
