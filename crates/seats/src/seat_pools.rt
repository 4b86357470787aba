//! The seats of one thread at one server.
ghost use Rattle.std.specs.Prelude.{◌≡◌, ◌<◌, ◌≤◌, ◌+◌, MatchBool, OnOk, vec_capacity, vec_len};
ghost use Rattle.std.specs.VecDeque.{deque_capacity, deque_len};

use crate::peeks::peek;
use crate::submitters::Submitter;
use ends::Failures;
use rail::{CallSender, Reader, Seat, Told};
use server_guards::{Gauge, Mark};
use serving::CallFault;
use std::alloc::{AllocError, Global};
use std::collections::VecDeque;
use std::marker::Model;
use std::sync::Wait;
use table::{Call, Reply};

/// What one thread has at one server: a reader, a sender of calls, and seats that its connections take in turn. All
/// calls of its seats go by its one sender, so the server takes them in the order in which they were sent. Contracts
/// see what the reader has seen or was told of, at which faces it has looked, the sender with all that it sent, the
/// seats that are here, how many it has, the limit of its gauge, and how often a call got no reply (`Pooling`). No seat
/// is lost: one that isn't here was taken out.
#[derive(Drop)]
pub struct SeatPool {
    reader: Reader,
    call_sender: CallSender,
    // Set as soon as the server fails.
    mark: Mark,
    // Whether the server's items may take more memory.
    gauge: Gauge,
    // How often a call got no reply, for contracts alone.
    faults: Failures,
    // How many updates of a connection may be sent ahead of the first one's reply.
    most_ahead: usize,
    // How many seats it has, with those that were taken out.
    seats: usize,
    // Seats at which no call is open. There is room for all.
    free: Vec<Submitter>,
    // Seats with open calls for whose replies nobody waits any more. There is room for all.
    left: VecDeque<Submitter>,
}

impl Model for SeatPool {
    ghost use Rattle.std.specs.Coded.{codes};
    ghost use Rattle.atomic_table.specs.Seated.{table_id_coded};
    ghost use Rattle.logbook.specs.Pages.{book_coded};
    ghost use Rattle.versions.specs.Stores.{coded_items};
    ghost use Rattle.std.specs.Prelude.{vec_capacity};
    ghost use Rattle.std.specs.VecDeque.{deque_capacity};
    ghost use Rattle.seats.specs.SeatPools.{IsPool, Pooling};

    ghost Value = { Pooling };

    ghost coded = { Prim.hlevel (codes, coded_items, book_coded, table_id_coded) };

    ghost view = { λ p. record {
      seen = p.reader.seen;
      looks = p.reader.looks;
      sender = p.call_sender;
      free = p.free.items;
      left = p.left.items;
      seats = p.seats;
      limit = p.gauge.allowance.limit;
      faults = p.faults;
    } };

    ghost invariant = { λ p.
        IsPool p.reader.seen.instance p.call_sender p.seats p.free.items p.left.items (vec_capacity p.free)
        (deque_capacity p.left) };
}

impl SeatPool {
    ghost use Rattle.std.specs.Prelude.{◌≡◌, ◌↔◌, ◌<◌, ◌++◌, ◌∷◌, [], None, Option, length};
    ghost use Rattle.std.specs.Prelude.{IfOk, IfSome, IsErr, IsTrue, MatchOption, MatchResult, OnErr, OnOk, OnSome, Some};
    ghost use Rattle.std.specs.Prelude.{true};
    ghost use Rattle.node.specs.Lawful.{IsCall};
    ghost use Rattle.table.specs.Items.{Item};
    ghost use Rattle.table.specs.declared.operations.Reply.TheVariants.{Value};
    ghost use Rattle.faces.specs.Histories.{IsLater};
    ghost use Rattle.faces.specs.Readers.{HasLookedAtMostOnce};
    ghost use Rattle.seats.specs.Replies.{HasAllReplies, ShowsClean};
    ghost use Rattle.seats.specs.SeatPools.{HasAllSeats, HasSameReader, HasSameSeats, HasSentNothing, IsAt, IsFreeAt};
    ghost use Rattle.seats.specs.SeatPools.{IsOneOut, here, put_back, put_left, with_free, with_sent_call};
    ghost use Rattle.seats.specs.SeatPools.{HasNoFault, HasOneFault, HasSameLimit, with_fault, without_seats};
    ghost use Rattle.seats.specs.Submitters.{IsAnswered, unused};

    /// A pool without seats, at the reader's server, which has this sender, this mark and this gauge.
    pub fn new(
        alloc: Global,
        reader: Reader,
        call_sender: CallSender,
        mark: Mark,
        gauge: Gauge,
    ) -> SeatPool
        requires { call_sender.instance ≡ reader.seen.instance }
        ensures { result ≡ without_seats reader call_sender gauge.allowance.limit }
    {
        SeatPool {
            reader,
            call_sender,
            mark,
            gauge,
            faults: Failures::new(),
            most_ahead: 0,
            seats: 0,
            free: Vec::new(alloc),
            left: VecDeque::new(alloc),
        }
    }

    /// Adds a seat of the same server, at which no call waits for its reply. It is free then, and there is room for
    /// whatever may become of it later. If it is refused, memory is out, and the seat is dropped.
    pub fn add(&mut self, seat: Seat) -> Result<(), AllocError>
        requires server { seat.instance ≡ self.old.seen.instance }
        requires replied { HasAllReplies seat }
        ensures added { OnOk result (self.new ≡ with_free self.old (unused seat)) }
        ensures refused { OnErr result (self.new ≡ self.old) }
        // Whatever the answer.
        ensures reader { HasSameReader self.old self.new }
        ensures unsent { HasSentNothing self.old self.new }
    {
        let Some(seats) = self.seats.checked_add(1) else {
            drop(seat);
            return Err(AllocError);
        };
        match make_room(&mut self.free, &mut self.left, seats) {
            Ok(()) => {
                self.seats = seats;
                self.free.push_reserved(Submitter::new(seat));
                Ok(())
            }
            Err(error) => {
                drop(seat);
                Err(error)
            }
        }
    }

    /// Lets this many updates of each connection be sent while the first one waits for its reply. At first none is.
    pub fn let_ahead(&mut self, most: usize)
        ensures { self.new ≡ self.old }
    {
        self.most_ahead = most;
    }

    /// How many updates of a connection may be sent ahead of the first one's reply.
    pub(crate) fn most_ahead(&self) -> usize {
        self.most_ahead
    }

    /// Whether a call that stores may be sent. If not, it is to be refused. It always may if there is no limit.
    pub fn has_room(&self) -> bool
        ensures { self.now.limit ≡ None → result ≡ true }
    {
        self.gauge.has_room()
    }

    /// Whether a seat is free.
    pub fn has_free(&self) -> bool
        ensures { IsTrue result ↔ (0 < length self.now.free) }
    {
        !self.free.is_empty()
    }

    /// The reply to a call by a look alone, as `peek` says. Refused if the server is marked.
    pub fn peek(&mut self, call: &Call) -> Result<Option<Reply>, CallFault>
        ensures later { IsLater self.old.seen self.new.seen }
        ensures clean { IfOk result (λ found. IfSome found
            (λ reply. (item : Option Item) × (reply ≡ Value item) × ShowsClean self.new.seen call.now item)) }
        ensures looked { IfOk result (λ found. OnSome found (self.new.looks ≡ self.old.looks ++ self.new.seen ∷ [])) }
        // Whatever the answer: no look is forgotten, and at most one is made.
        ensures once { HasLookedAtMostOnce self.old.looks self.new.looks }
        ensures seats { HasSameSeats self.old self.new }
        ensures unsent { HasSentNothing self.old self.new }
        ensures limit { HasSameLimit self.old self.new }
        ensures fault { MatchResult result (λ _. HasNoFault self.old self.new) (λ _. HasOneFault self.old self.new) }
    {
        let found = peek(&mut self.reader, call);
        if self.mark.is_set() {
            drop(found);
            self.faults.rise();
            return Err(CallFault);
        }
        Ok(found)
    }

    /// A note of what its reader has seen.
    pub fn tell(&self) -> Told
        ensures { result ≡ self.now.seen }
    {
        self.reader.tell()
    }

    /// Takes the replies for which nobody waits any more: their seats are free then.
    pub fn collect<R: Wait>(&mut self, rt: &R)
        ensures later { IsLater self.old.seen self.new.seen }
        ensures looks { self.new.looks ≡ self.old.looks }
        ensures seats { HasAllSeats self.old self.new }
        ensures unsent { HasSentNothing self.old self.new }
    {
        for _ in 0..self.left.len() {
            self.collect_one(rt);
        }
    }

    // Takes such a reply, if it has come.
    fn collect_one<R: Wait>(&mut self, rt: &R)
        ensures later { IsLater self.old.seen self.new.seen }
        ensures looks { self.new.looks ≡ self.old.looks }
        ensures seats { HasAllSeats self.old self.new }
        ensures unsent { HasSentNothing self.old self.new }
    {
        if let Some(mut seat) = self.left.pop_front() {
            drop(seat.take(rt, &mut self.reader));
            if seat.is_free() {
                self.free.push_reserved(seat);
            } else {
                self.left.push_back_reserved(seat);
            }
        }
    }

    /// Takes a free seat out, if there is one.
    pub(crate) fn take_free(&mut self) -> Option<Submitter>
        ensures reader { HasSameReader self.old self.new }
        ensures unsent { HasSentNothing self.old self.new }
        ensures taken { MatchOption result ((self.new ≡ self.old) × (self.old.free ≡ []))
            (λ seat. self.old ≡ put_back self.new seat) }
        ensures unfailed { HasNoFault self.old self.new }
        ensures free { IfSome result (IsFreeAt self.old.seen.instance) }
        ensures out { OnSome result (IsOneOut self.new) }
    {
        self.free.pop()
    }

    /// Takes a seat back at which no call is open. If none of its seats is out, it is another pool's, and is dropped.
    pub(crate) fn put(&mut self, free: Submitter)
        requires { IsFreeAt self.old.seen.instance free }
        ensures reader { HasSameReader self.old self.new }
        ensures unsent { HasSentNothing self.old self.new }
        ensures unfailed { HasNoFault self.old self.new }
        ensures back { IsOneOut self.old → self.new ≡ put_back self.old free }
        ensures other { here self.old ≡ self.old.seats → self.new ≡ self.old }
    {
        if is_one_out(&self.free, &self.left, self.seats) {
            self.free.push_reserved(free);
        } else {
            drop(free);
        }
    }

    /// Takes a seat back, for whose reply nobody waits any more. If none of its seats is out, it is another pool's, and
    /// is dropped.
    pub(crate) fn leave(&mut self, left: Submitter)
        requires { IsAt self.old.seen.instance left }
        ensures reader { HasSameReader self.old self.new }
        ensures unsent { HasSentNothing self.old self.new }
        ensures unfailed { HasNoFault self.old self.new }
        ensures back { IsOneOut self.old → self.new ≡ put_left self.old left }
        ensures other { here self.old ≡ self.old.seats → self.new ≡ self.old }
    {
        if is_one_out(&self.free, &self.left, self.seats) {
            self.left.push_back_reserved(left);
        } else {
            drop(left);
        }
    }

    /// Sends a call at a seat that was taken out, as `Submitter::submit` says. It is then the last one that the pool's
    /// sender sent.
    pub(crate) fn submit<R: Wait>(
        &mut self,
        rt: &R,
        submitter: &mut Submitter,
        call: Call,
    ) -> Result<(), CallFault>
        requires call { IsCall call }
        requires free { IsFreeAt self.old.seen.instance submitter.old }
        ensures sent { OnOk result (self.new ≡ with_sent_call self.old submitter.old.seat.port call) }
        ensures waits { OnOk result (submitter.new ≡
            record submitter.old { waiting = Some (record { sender = self.old.sender; call = call }) }) }
        ensures err { OnErr result
            ((submitter.new ≡ record submitter.old { lost = true }) × (self.new ≡ with_fault self.old)) }
        ensures spent { submitter.old.lost ≡ true → IsErr result }
    {
        match submitter.submit(rt, &mut self.call_sender, call) {
            Ok(()) => Ok(()),
            Err(fault) => {
                self.faults.rise();
                Err(fault)
            }
        }
    }

    /// The reply to the open call of a seat that was taken out, as `Submitter::take` says.
    pub(crate) fn take_reply<R: Wait>(
        &mut self,
        rt: &R,
        submitter: &mut Submitter,
    ) -> Result<Option<Reply>, CallFault>
        requires server { IsAt self.old.seen.instance submitter.old }
        ensures server { IsAt self.new.seen.instance submitter.new }
        ensures later { IsLater self.old.seen self.new.seen }
        ensures looks { self.new.looks ≡ self.old.looks }
        ensures seats { HasSameSeats self.old self.new }
        ensures unsent { HasSentNothing self.old self.new }
        ensures taken { IfOk result (λ found. MatchOption found
            ((submitter.new ≡ submitter.old) × (self.new ≡ self.old))
            (λ reply. IsAnswered self.old.seen self.new.seen submitter.old submitter.new reply)) }
        ensures lost { OnErr result (submitter.new.waiting ≡ None) }
        ensures fault { MatchResult result (λ _. HasNoFault self.old self.new) (λ _. HasOneFault self.old self.new) }
    {
        match submitter.take(rt, &mut self.reader) {
            Ok(reply) => Ok(reply),
            Err(fault) => {
                self.faults.rise();
                Err(fault)
            }
        }
    }
}

// Whether one of n seats is out: neither free nor left.
fn is_one_out(free: &Vec<Submitter>, left: &VecDeque<Submitter>, seats: usize) -> bool
    requires { vec_len free.now + deque_len left.now ≤ seats }
    ensures { MatchBool result
        (vec_len free.now + deque_len left.now < seats)
        (vec_len free.now + deque_len left.now ≡ seats) }
{
    free.len() + left.len() < seats
}

// Makes room for one more free seat, and for n in all among those that are free, and among those that were left.
fn make_room(
    free: &mut Vec<Submitter>,
    left: &mut VecDeque<Submitter>,
    seats: usize,
) -> Result<(), AllocError>
    ensures free { free.new.items ≡ free.old.items }
    ensures left { left.new.items ≡ left.old.items }
    ensures frees { vec_capacity free.old ≤ vec_capacity free.new }
    ensures leaves { deque_capacity left.old ≤ deque_capacity left.new }
    ensures one { OnOk result (vec_len free.new < vec_capacity free.new) }
    ensures all { OnOk result ((seats ≤ vec_capacity free.new) × (seats ≤ deque_capacity left.new)) }
{
    free.reserve(seats.saturating_sub(free.len()).max(1))?;
    left.reserve(seats.saturating_sub(left.len()))?;
    Ok(())
}
