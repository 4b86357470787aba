//! A client's connection with its socket, which goes as far as it can without waiting.
ghost use Rattle.std.specs.Prelude.{◌≡◌, ◌+◌, IfSome, IsFalse, MatchOption, OnSome, []};
ghost use Rattle.seats.specs.declared.client_connections.CallStanding.TheVariants.{Reading};
ghost use Rattle.seats.specs.ClientConnections.{HasSentInTurn};
ghost use Rattle.seats.specs.SeatPools.{Pooling};
ghost use Rattle.io_threads.specs.Clients.{HasPassed, IsAtRest, without_call};
ghost use Rattle.io_threads.specs.ClientSockets.{read_faults, write_faults};

use crate::client_sockets::{ClientSocket, ReadOutcome, WriteOutcome};
use seats::{ClientConnection, Pause, SeatPool};
use server_guards::{OutputPermit, Permit};
use serving::ServeFault;
use std::alloc::Global;
use std::io::{Read, Write};
use std::marker::Model;
use std::sync::Wait;
use std::time::Clock;

/// How far a client went.
#[derive(Clone, Copy, Debug, PartialEq, Eq)]
pub struct Progress {
    /// Why it goes no further.
    pub pause: Pause,
    /// Whether it sent a call, for which a turn is due, or may have sent one before a fault.
    pub has_sent: bool,
}

/// What came of the replies to a client's calls.
#[derive(Clone, Copy, Debug, PartialEq, Eq)]
pub enum ReplyOutcome {
    /// One or more have come, and were handed on.
    Reply,
    /// None has come yet.
    NotYet,
    /// None will be handed on any more: memory was refused to one, or the server answers no call any more.
    Over(ServeFault),
}

/// What a socket was found ready for.
#[derive(Clone, Copy, Debug)]
pub struct Ready {
    pub reading: bool,
    pub writing: bool,
    /// Whether the other side has ended its part, so that what is read ends.
    pub ended: bool,
    /// Whether the connection is broken, or both sides have ended it, so that nobody reads what is written.
    pub gone: bool,
}

/// How many reads and writes a client makes before others have their turn.
const PASSES: usize = 4;

/// A client's connection with its socket. Contracts see what has come of the connection, the bytes that the socket gave
/// and those that it took, and why it may go no further (`ClientState`). The type keeps that what the socket gave was
/// fed, unless memory was refused, and that what it took is what the connection counts as written.
#[derive(Drop)]
pub struct Client<S: Read + Write> {
    // The fields lie in this order, and what each event looks at before the client connection: one line of the
    // processor's memory.
    client_socket: ClientSocket<S>,
    // Why it went no further last.
    pause: Pause,
    // Whether there may be input, and whether more output may be taken.
    is_readable: bool,
    is_writable: bool,
    // Whether the other side has ended its part, and whether the connection is gone. The system tells either once.
    has_ended: bool,
    is_gone: bool,
    // Whether memory was refused to what was read last.
    is_refused: bool,
    client_connection: ClientConnection,
}

impl<S: Read + Write> Model for Client<S> {
    ghost use Rattle.std.specs.Coded.{codes};
    ghost use Rattle.atomic_table.specs.Seated.{table_id_coded};
    ghost use Rattle.logbook.specs.Pages.{book_coded};
    ghost use Rattle.table.specs.Items.{coded_item};
    ghost use Rattle.versions.specs.Stores.{coded_items};
    ghost use Rattle.io_threads.specs.Clients.{ClientState, IsPassed};

    ghost Value = { ClientState };

    ghost coded = { Prim.hlevel (codes, coded_item, coded_items, book_coded, table_id_coded) };

    ghost view = { λ c. record {
      client_connection = c.client_connection;
      given = c.client_socket.given;
      taken = c.client_socket.taken;
      refused = c.is_refused;
      gone = c.is_gone;
      faults = c.client_socket.faults;
    } };

    ghost invariant = { λ c. IsPassed c.client_socket.given c.client_socket.taken c.is_refused
        c.client_connection.connected };
}

impl<S: Read + Write> Client<S> {
    ghost use Rattle.std.specs.Prelude.{◌≡◌, ◌≢◌, ◌≤◌, ◌<◌, ◌++◌, ◌||◌, ℕ, List, [], true, false, length};
    ghost use Rattle.std.specs.Prelude.{IfNone, IfSome, IsFalse};
    ghost use Rattle.faces.specs.Histories.{IsLater};
    ghost use Rattle.serving.specs.Connections.{IsBegun};
    ghost use Rattle.seats.specs.SeatPools.{HasSameReader, HasSentNothing};
    ghost use Rattle.seats.specs.ClientConnections.{HasSentInTurn, IsFurther, begun};
    ghost use Rattle.seats.specs.declared.client_connections.CallStanding.TheVariants.{Reading};
    ghost use Rattle.io_threads.specs.Clients.{HasGoneQuietly, HasHeardOf, HasPassed, HasPaused, HasPausedAtSocket};
    ghost use Rattle.io_threads.specs.Clients.{IsAtRest};

    /// A client that has said nothing. It allocates nothing.
    pub fn new(alloc: Global, socket: S, pool: &SeatPool) -> Client<S>
        ensures client_connection { result.client_connection ≡ begun pool.now.seen }
        ensures given { result.given ≡ [] }
        ensures taken { result.taken ≡ [] }
        ensures whole { result.refused ≡ false }
        ensures present { result.gone ≡ false }
        ensures fresh { result.faults ≡ 0 }
    {
        Client {
            client_socket: ClientSocket::new(socket),
            pause: Pause::Input,
            client_connection: ClientConnection::new(alloc, pool),
            is_readable: false,
            is_writable: true,
            has_ended: false,
            is_gone: false,
            is_refused: false,
        }
    }

    /// Whatever was done, unless memory was refused: what the socket took, and then what is due, is a beginning of what
    /// is due for the bytes that it gave; and so it stays, whatever bytes may follow.
    pub fn so_far(&self)
        ensures begun { self.now.refused ≡ false
            → (more : List ℕ) → IsBegun self.now.client_connection.connected (self.now.given ++ more) }
        ensures taken { self.now.taken ≡ self.now.client_connection.connected.written }
    {
        self.client_connection.so_far();
    }

    /// Its socket was found ready for this. Once the connection is gone it stays so.
    pub fn note_ready(&mut self, ready: Ready)
        ensures { self.new ≡ record self.old { gone = self.old.gone || ready.gone } }
    {
        self.is_readable |= ready.reading || ready.ended;
        self.is_writable |= ready.writing;
        self.has_ended |= ready.ended;
        self.is_gone |= ready.gone;
    }

    // Why it went no further last; at first it wants input.
    pub(crate) fn pause(&self) -> Pause {
        self.pause
    }

    // How much output is due, and one more if it wants input.
    pub(crate) fn look_at(&self) -> usize {
        let due = self.client_connection.output().len();
        due.wrapping_add(usize::from(self.client_connection.wants_input()))
    }

    /// Goes on for a while, and says why it goes no further: `HasPaused` tells what each answer means; and whether it
    /// sent a call. Once memory was refused to what was read, or the connection is gone, nothing is read, written,
    /// looked at or sent. The slice is room for what is read. Before each write the output permit is asked, after all
    /// that is due was made up. If it doesn't let the server put anything out, what is due stays so. An output permit
    /// that no lease holds lets all out.
    #[tactic(auto, using(crate::proofs::Later::seeing, crate::proofs::Pausing::passed, crate::proofs::Pausing::ending, crate::proofs::Sending::sending, crate::proofs::Sending::resting))]
    pub fn serve<R: Wait + Clock>(
        &mut self,
        rt: &R,
        pool: &mut SeatPool,
        piece: &mut [u8],
        output_permit: &OutputPermit,
    ) -> Progress
        requires known { IsLater self.old.client_connection.seen pool.old.seen }
        ensures known { IsLater self.new.client_connection.seen pool.new.seen }
        ensures later { IsLater pool.old.seen pool.new.seen }
        ensures first { self.new.client_connection.first ≡ self.old.client_connection.first }
        ensures unheard { self.new.client_connection.heard ≡ self.old.client_connection.heard }
        ensures given { HasPassed self.old.given self.new.given }
        ensures taken { HasPassed self.old.taken self.new.taken }
        ensures gone { self.new.gone ≡ self.old.gone }
        ensures paused { HasPaused result.pause self.old self.new pool.old pool.new }
        ensures sent { HasSentInTurn self.old.client_connection self.new.client_connection pool.old pool.new }
        ensures unsent { IsFalse result.has_sent → HasSentNothing pool.old pool.new }
        ensures held { output_permit.now ≡ false → result.pause ≢ Pause.Lease }
        ensures refused { self.old.refused ≡ true →
            (result.pause ≡ Pause.Over) × (self.new ≡ self.old) × (pool.new ≡ pool.old) }
        ensures left { self.old.gone ≡ true →
            (result.pause ≡ Pause.Over) × (self.new ≡ self.old) × (pool.new ≡ pool.old) }
    {
        still(&self.client_connection);
        if self.is_refused || self.is_gone {
            return Progress {
                pause: Pause::Over,
                has_sent: false,
            };
        }
        let progress = self.take_steps(rt, pool, piece, output_permit);
        self.pause = progress.pause;
        progress
    }

    // Takes a few steps.
    #[tactic(auto, using(crate::proofs::Later::seeing, crate::proofs::Pausing::passed, crate::proofs::Pausing::ending, crate::proofs::Sending::sending, crate::proofs::Sending::resting))]
    fn take_steps<R: Wait + Clock>(
        &mut self,
        rt: &R,
        pool: &mut SeatPool,
        piece: &mut [u8],
        output_permit: &OutputPermit,
    ) -> Progress
        requires known { IsLater self.old.client_connection.seen pool.old.seen }
        requires whole { self.old.refused ≡ false }
        ensures known { IsLater self.new.client_connection.seen pool.new.seen }
        ensures later { IsLater pool.old.seen pool.new.seen }
        ensures first { self.new.client_connection.first ≡ self.old.client_connection.first }
        ensures unheard { self.new.client_connection.heard ≡ self.old.client_connection.heard }
        ensures given { HasPassed self.old.given self.new.given }
        ensures taken { HasPassed self.old.taken self.new.taken }
        ensures gone { self.new.gone ≡ self.old.gone }
        ensures paused { HasPaused result.pause self.old self.new pool.old pool.new }
        ensures sent { HasSentInTurn self.old.client_connection self.new.client_connection pool.old pool.new }
        ensures unsent { IsFalse result.has_sent → HasSentNothing pool.old pool.new }
        ensures held { output_permit.now ≡ false → result.pause ≢ Pause.Lease }
    {
        still(&self.client_connection);
        for _ in 0..PASSES {
            if let Some(progress) = self.step(rt, pool, piece, output_permit) {
                return progress;
            }
        }
        Progress {
            pause: Pause::Turn,
            has_sent: false,
        }
    }

    // Goes on until it has to read or write, and does so once. If it goes on after that, no call was sent.
    #[tactic(auto, using(crate::proofs::Later::seeing, crate::proofs::Pausing::passed, crate::proofs::Pausing::ending, crate::proofs::Sending::sending, crate::proofs::Sending::resting))]
    fn step<R: Wait + Clock>(
        &mut self,
        rt: &R,
        pool: &mut SeatPool,
        piece: &mut [u8],
        output_permit: &OutputPermit,
    ) -> Option<Progress>
        requires known { IsLater self.old.client_connection.seen pool.old.seen }
        requires whole { self.old.refused ≡ false }
        ensures known { IsLater self.new.client_connection.seen pool.new.seen }
        ensures later { IsLater pool.old.seen pool.new.seen }
        ensures first { self.new.client_connection.first ≡ self.old.client_connection.first }
        ensures unheard { self.new.client_connection.heard ≡ self.old.client_connection.heard }
        ensures given { HasPassed self.old.given self.new.given }
        ensures taken { HasPassed self.old.taken self.new.taken }
        ensures gone { self.new.gone ≡ self.old.gone }
        ensures faults { self.old.faults ≤ self.new.faults }
        ensures whole { IfNone result (self.new.refused ≡ false) }
        ensures paused { IfSome result
            (λ progress. HasPaused progress.pause self.old self.new pool.old pool.new) }
        ensures sent { HasSentInTurn self.old.client_connection self.new.client_connection pool.old pool.new }
        ensures unsent { IfSome result (λ progress. IsFalse progress.has_sent → HasSentNothing pool.old pool.new) }
        ensures quiet { IfNone result
            (HasGoneQuietly self.old.client_connection self.new.client_connection pool.old pool.new) }
        ensures held { output_permit.now ≡ false → IfSome result (λ progress. progress.pause ≢ Pause.Lease) }
    {
        let in_flight = self.client_connection.in_flight();
        match self.client_connection.advance(rt, pool) {
            Ok(Pause::Input) => without_call(self.read(piece)),
            Ok(Pause::Output) => without_call(self.write(rt, output_permit)),
            Ok(Pause::Reply) => Some(Progress {
                pause: Pause::Reply,
                has_sent: is_another(self.client_connection.in_flight(), in_flight),
            }),
            Ok(Pause::Seat) => Some(Progress {
                pause: Pause::Seat,
                has_sent: false,
            }),
            Ok(Pause::Turn) => Some(Progress {
                pause: Pause::Turn,
                has_sent: false,
            }),
            Ok(Pause::Over) => Some(Progress {
                pause: Pause::Over,
                has_sent: false,
            }),
            Ok(Pause::Lease) => unreachable!(),
            Err(_) => Some(Progress {
                pause: Pause::Over,
                has_sent: true,
            }),
        }
    }

    // Reads once, if there may be input.
    #[tactic(auto, using(crate::proofs::Pausing::passed, crate::proofs::Pausing::breaking, crate::proofs::Sending::resting))]
    fn read(&mut self, piece: &mut [u8]) -> Option<Pause>
        requires reads { self.old.client_connection.standing ≡ Reading }
        requires waits { self.old.client_connection.connected.waiting ≡ [] }
        requires whole { self.old.refused ≡ false }
        ensures rest { IsAtRest self.new.client_connection }
        ensures seen { self.new.client_connection.seen ≡ self.old.client_connection.seen }
        ensures first { self.new.client_connection.first ≡ self.old.client_connection.first }
        ensures unheard { self.new.client_connection.heard ≡ self.old.client_connection.heard }
        ensures given { HasPassed self.old.given self.new.given }
        ensures taken { self.new.taken ≡ self.old.taken }
        ensures gone { self.new.gone ≡ self.old.gone }
        ensures faults { self.old.faults ≤ self.new.faults }
        ensures whole { IfNone result (self.new.refused ≡ false) }
        ensures paused { IfSome result (λ pause. HasPausedAtSocket pause self.old.faults self.new) }
        ensures held { IfSome result (λ pause. pause ≢ Pause.Lease) }
    {
        if !self.is_readable {
            return Some(Pause::Input);
        }
        match read(&mut self.client_socket, &mut self.client_connection, piece) {
            Some(ReadOutcome::Bytes(n)) => {
                self.is_readable = n == piece.len() || self.has_ended;
                None
            }
            Some(ReadOutcome::Nothing) => {
                self.is_readable = false;
                Some(Pause::Input)
            }
            Some(ReadOutcome::End) => None,
            Some(ReadOutcome::Fault) => Some(Pause::Over),
            None => {
                self.is_refused = true;
                Some(Pause::Over)
            }
        }
    }

    // Writes once, if output may be taken, and the server may put it out.
    #[tactic(auto, using(crate::proofs::Pausing::passed, crate::proofs::Pausing::breaking, crate::proofs::Sending::resting))]
    fn write<R: Clock>(&mut self, rt: &R, output_permit: &OutputPermit) -> Option<Pause>
        requires writes { 0 < length self.old.client_connection.connected.due }
        requires rests { IsAtRest self.old.client_connection }
        ensures rest { IsAtRest self.new.client_connection }
        ensures seen { self.new.client_connection.seen ≡ self.old.client_connection.seen }
        ensures first { self.new.client_connection.first ≡ self.old.client_connection.first }
        ensures unheard { self.new.client_connection.heard ≡ self.old.client_connection.heard }
        ensures given { self.new.given ≡ self.old.given }
        ensures taken { HasPassed self.old.taken self.new.taken }
        ensures gone { self.new.gone ≡ self.old.gone }
        ensures faults { self.old.faults ≤ self.new.faults }
        ensures whole { self.new.refused ≡ self.old.refused }
        ensures paused { IfSome result (λ pause. HasPausedAtSocket pause self.old.faults self.new) }
        ensures held { output_permit.now ≡ false → IfSome result (λ pause. pause ≢ Pause.Lease) }
    {
        if !self.is_writable {
            return Some(Pause::Output);
        }
        let Some(permit) = output_permit.lets(rt, self.client_connection.output()) else {
            return Some(Pause::Lease);
        };
        match write(&mut self.client_socket, &mut self.client_connection, permit) {
            WriteOutcome::Bytes(_) => None,
            WriteOutcome::Nothing => {
                self.is_writable = false;
                Some(Pause::Output)
            }
            WriteOutcome::Fault => Some(Pause::Over),
        }
    }

    /// Takes the replies to the calls that were sent, as many as have come, that to the oldest call first, and says
    /// what came of them. Nothing is read, written or sent.
    pub fn receive_replies<R: Wait>(&mut self, rt: &R, pool: &mut SeatPool) -> ReplyOutcome
        requires known { IsLater self.old.client_connection.seen pool.old.seen }
        ensures known { IsLater self.new.client_connection.seen pool.new.seen }
        ensures later { IsLater pool.old.seen pool.new.seen }
        ensures same { self.new ≡ record self.old { client_connection = self.new.client_connection } }
        ensures first { self.new.client_connection.first ≡ self.old.client_connection.first }
        ensures further { IsFurther self.old.client_connection.connected self.new.client_connection.connected }
        ensures heard { HasHeardOf result self.old.client_connection self.new.client_connection pool.old pool.new }
        ensures unsent { HasSentNothing pool.old pool.new }
    {
        match self.client_connection.receive_replies(rt, pool) {
            Ok(true) => ReplyOutcome::Reply,
            Ok(false) => ReplyOutcome::NotYet,
            Err(fault) => ReplyOutcome::Over(fault),
        }
    }

    /// Closes its socket, whatever is due. The seat of its open call, if it has one, is free again once the reply to
    /// that has come, which nobody waits for any more.
    pub fn leave(self, pool: &mut SeatPool)
    where
        S: Drop,
        requires known { IsLater self.client_connection.seen pool.old.seen }
        ensures { HasSameReader pool.old pool.new }
    {
        let Client {
            client_socket,
            client_connection,
            ..
        } = self;
        drop(client_socket);
        client_connection.leave(pool);
    }
}

// Nothing is sent while nothing is done.
#[tactic(auto, using(crate::proofs::Sending::nothing_yet))]
fn still(client_connection: &ClientConnection)
    ensures { (pool : Pooling) → HasSentInTurn client_connection.now client_connection.now pool pool }
{
    client_connection.so_far();
}

// It goes no further for this reason, if there is one, and sent no call.
fn without_call(pause: Option<Pause>) -> Option<Progress>
    ensures { result ≡ without_call pause }
{
    match pause {
        Some(pause) => Some(Progress {
            pause,
            has_sent: false,
        }),
        None => None,
    }
}

// Whether another number of calls is in flight than before.
fn is_another(now: Option<usize>, before: Option<usize>) -> bool
    ensures { IsFalse result → now ≡ before }
{
    match (now, before) {
        (Some(n), Some(m)) => n != m,
        (None, None) => false,
        _ => true,
    }
}

// Reads once, and feeds what came. None if memory is refused to that.
#[tactic(auto, using(crate::proofs::Pausing::passed, crate::proofs::Sending::resting))]
fn read<S: Read + Write>(
    client_socket: &mut ClientSocket<S>,
    client_connection: &mut ClientConnection,
    piece: &mut [u8],
) -> Option<ReadOutcome>
    requires reads { client_connection.old.standing ≡ Reading }
    requires waits { client_connection.old.connected.waiting ≡ [] }
    requires given { client_socket.old.given ≡ client_connection.old.connected.read }
    requires taken { client_socket.old.taken ≡ client_connection.old.connected.written }
    ensures given { OnSome result (client_socket.new.given ≡ client_connection.new.connected.read) }
    ensures taken { client_socket.new.taken ≡ client_connection.new.connected.written }
    ensures passed { HasPassed client_socket.old.given client_socket.new.given }
    ensures untaken { client_socket.new.taken ≡ client_socket.old.taken }
    ensures faults { MatchOption result (client_socket.new.faults ≡ client_socket.old.faults)
        (λ came. client_socket.new.faults ≡ client_socket.old.faults + read_faults came) }
    ensures waits { IfSome result (λ came. came ≡ ReadOutcome.Nothing → client_connection.new ≡ client_connection.old) }
    ensures rest { IsAtRest client_connection.new }
    ensures seen { client_connection.new.seen ≡ client_connection.old.seen }
    ensures first { client_connection.new.first ≡ client_connection.old.first }
    ensures unheard { client_connection.new.heard ≡ client_connection.old.heard }
{
    match client_socket.read(piece) {
        ReadOutcome::Bytes(n) => {
            if client_connection.feed(&piece[..n]).is_err() {
                return None;
            }
            Some(ReadOutcome::Bytes(n))
        }
        ReadOutcome::End => {
            client_connection.input_ended();
            Some(ReadOutcome::End)
        }
        ReadOutcome::Nothing => Some(ReadOutcome::Nothing),
        ReadOutcome::Fault => Some(ReadOutcome::Fault),
    }
}

// Writes once, what this permit was given for, and counts what went.
#[tactic(auto, using(crate::proofs::Pausing::passed, crate::proofs::Sending::resting))]
fn write<S: Read + Write>(
    client_socket: &mut ClientSocket<S>,
    client_connection: &mut ClientConnection,
    permit: Permit,
) -> WriteOutcome
    requires permitted { permit ≡ client_connection.old.connected.due }
    requires rests { IsAtRest client_connection.old }
    requires taken { client_socket.old.taken ≡ client_connection.old.connected.written }
    ensures given { client_socket.new.given ≡ client_socket.old.given }
    ensures read { client_connection.new.connected.read ≡ client_connection.old.connected.read }
    ensures taken { client_socket.new.taken ≡ client_connection.new.connected.written }
    ensures passed { HasPassed client_socket.old.taken client_socket.new.taken }
    ensures faults { client_socket.new.faults ≡ client_socket.old.faults + write_faults result }
    ensures waits { result ≡ WriteOutcome.Nothing → client_connection.new ≡ client_connection.old }
    ensures rest { IsAtRest client_connection.new }
    ensures seen { client_connection.new.seen ≡ client_connection.old.seen }
    ensures first { client_connection.new.first ≡ client_connection.old.first }
    ensures unheard { client_connection.new.heard ≡ client_connection.old.heard }
{
    match client_socket.write(client_connection.output(), permit) {
        WriteOutcome::Bytes(n) => {
            client_connection.written(n);
            WriteOutcome::Bytes(n)
        }
        WriteOutcome::Nothing => WriteOutcome::Nothing,
        WriteOutcome::Fault => WriteOutcome::Fault,
    }
}
