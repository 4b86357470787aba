//! Requests that wait for the answer of one server: a machine that reads no clock and sends nothing.
ghost use Rattle.std.specs.Prelude.{◌≡◌, ◌++◌, ◌∷◌, [], find, length, map, option_map, position, IfSome, OnOk, Some};
ghost use Rattle.node.specs.Servers.{without_first};
ghost use Rattle.master_decisions.specs.Firsts.{with_first};
ghost use Rattle.master_decisions.specs.Waits.{answer_by, ended_by_opening, is_over, renewed, reply_to};
ghost use Rattle.master_decisions.specs.Waits.{is_answered, is_unwritten, order_of, request_of, written_at};

use crate::notices::Answer;
use crate::openings::{Opening, answer_of};
use crate::orders::named_in;
use leases::Order;
use std::alloc::{AllocError, Global};
use std::marker::Model;

/// What a server answers to an order.
#[derive(Clone, Copy)]
pub enum Reply {
    /// It has noted that this server is gone, or was silent.
    Noted(u8),
    /// How it is: it is in this epoch.
    Told(u64),
}

/// What may end the wait of requests.
#[derive(Clone, Copy)]
pub enum Cause {
    /// The server has answered an order.
    Reply(Reply),
    /// It is so late now: milliseconds since the master began. None if the clock can't be read: then the time of each
    /// request that is written is over, since nothing else would end it.
    Time(Option<u64>),
    /// The connection has ended.
    Break,
    /// This came of opening another one.
    Opening(Opening),
}

/// A request that waits for its answer.
#[derive(Clone, Copy)]
pub struct Waiting {
    /// The round to which the answer belongs.
    pub round: u32,
    /// The order that the server is to answer.
    pub order: Order,
    /// For how many milliseconds its answer is waited for, once it is written.
    pub patience: u64,
    /// When that time is over, in milliseconds since the master began; None as long as it isn't written to the
    /// connection that stands.
    pub until: Option<u64>,
    /// Whether the end of the connection is its end too: it was written to an earlier one, or isn't to be written anew.
    pub is_last: bool,
}

// What a request of server own is answered by this cause, if it is.
fn answer_by(own: u8, waiting: Waiting, cause: Cause) -> Option<Answer>
    ensures { result ≡ answer_by own waiting cause }
{
    match cause {
        Cause::Reply(reply) => reply_to(waiting.order, reply),
        Cause::Time(now) => is_over(waiting.until, now).then_some(Answer::Silent),
        Cause::Break => waiting.is_last.then_some(Answer::Silent),
        Cause::Opening(opening) => ended_by_opening(own, waiting.order, opening),
    }
}

// What the reply of a server means for an order, if it answers it. One that is in another epoch doesn't take a notice of
// silence.
fn reply_to(order: Order, reply: Reply) -> Option<Answer>
    ensures { result ≡ reply_to order reply }
{
    match reply {
        Reply::Noted(id) => (named_in(order) == Some(id)).then_some(Answer::Done),
        Reply::Told(told) => match order {
            Order::Reign(_) => Some(Answer::Done),
            Order::Silent(epoch, _) if epoch != told => Some(Answer::Untaken),
            Order::Silent(_, _) | Order::Beat(_, _) | Order::Gone(_) => None,
        },
    }
}

// Whether the time of a request is over.
fn is_over(until: Option<u64>, now: Option<u64>) -> bool
    ensures { result ≡ is_over until now }
{
    match (until, now) {
        (None, _) => false,
        (Some(_), None) => true,
        (Some(until), Some(now)) => until <= now,
    }
}

// What it means for an order to server `own` that this came of opening a connection, if it ends its wait: another start
// of the server is told of itself all the same.
fn ended_by_opening(own: u8, order: Order, opening: Opening) -> Option<Answer>
    ensures { result ≡ ended_by_opening own order opening }
{
    match opening {
        Opening::Accepted => None,
        Opening::Anew if named_in(order) == Some(own) => None,
        _ => Some(answer_of(opening)),
    }
}

// A request as it waits once the connection has ended, if it still does: it is to be written to the next one, for the
// last time if it was written before.
fn renewed(waiting: Waiting) -> Waiting
    ensures { result ≡ renewed waiting }
{
    Waiting {
        until: None,
        is_last: waiting.until.is_some() || waiting.is_last,
        ..waiting
    }
}

// A request as it waits once it is written, when it is so late.
fn written_at(waiting: Waiting, now: u64) -> Waiting
    ensures { result ≡ written_at now waiting }
{
    Waiting {
        until: Some(now.saturating_add(waiting.patience)),
        ..waiting
    }
}

/// The requests that wait for the answers of a server, in the order in which they came.
#[derive(Drop)]
pub struct Waits {
    all: Vec<Waiting>,
}

impl Model for Waits {
    ghost use Rattle.std.specs.Prelude.{List};
    ghost use Rattle.master_decisions.specs.declared.waits.Waiting.{Waiting};

    ghost Value = { List Waiting };

    ghost view = { λ w. w.all.items };
}

impl Waits {
    /// None waits.
    pub fn new(alloc: Global) -> Waits
        ensures { result ≡ [] }
    {
        Waits {
            all: Vec::new(alloc),
        }
    }

    /// How many wait.
    pub fn count(&self) -> usize
        ensures { result ≡ length self.now }
    {
        self.all.len()
    }

    /// One more waits. Fails only if memory runs out.
    pub fn add(&mut self, waiting: Waiting) -> Result<(), AllocError>
        ensures { OnOk result (self.new ≡ self.old ++ waiting ∷ []) }
    {
        self.all.push(waiting)?;
        Ok(())
    }

    /// Takes out the first one that is answered by this cause, at server `own`, with the answer.
    pub fn take_answered(&mut self, own: u8, cause: Cause) -> Option<(Waiting, Answer)>
        ensures request { option_map request_of result ≡ find (is_answered own cause) self.old }
        ensures answered { IfSome result (λ given. answer_by own given.0 cause ≡ Some given.1) }
        ensures rest { self.new ≡ without_first (is_answered own cause) self.old }
    {
        let k = self.place_of_answered(own, cause)?;
        let waiting = self.all[k];
        let answer = answer_by(own, waiting, cause)?;
        let _ = self.all.remove(k);
        Some((waiting, answer))
    }

    // Where the first one stands that is answered by this cause, at server own.
    fn place_of_answered(&self, own: u8, cause: Cause) -> Option<usize>
        ensures { result ≡ position (is_answered own cause) self.now }
    {
        self.all
            .iter()
            .position(|waiting| answer_by(own, *waiting, cause).is_some())
    }

    /// The order that is to be written next, if one is: that of the first request that isn't written.
    pub fn unwritten(&self) -> Option<Order>
        ensures { result ≡ option_map order_of (find is_unwritten self.now) }
    {
        let k = self.place_of_unwritten()?;
        Some(self.all[k].order)
    }

    // Where the first one stands that isn't written.
    fn place_of_unwritten(&self) -> Option<usize>
        ensures { result ≡ position is_unwritten self.now }
    {
        self.all.iter().position(|waiting| waiting.until.is_none())
    }

    /// That order is written, when it is so late: milliseconds since the master began.
    pub fn written(&mut self, now: u64)
        ensures { self.new ≡ with_first is_unwritten (written_at now) self.old }
    {
        if let Some(k) = self.place_of_unwritten() {
            self.all[k] = written_at(self.all[k], now);
        }
    }

    /// Those that still wait once the connection has ended are to be written to the next one.
    pub fn renew(&mut self)
        ensures { self.new ≡ map renewed self.old }
    {
        renew_all(self.all.as_mut_slice());
    }
}

// Each is to be written to the next connection.
fn renew_all(all: &mut [Waiting])
    ensures { all.new ≡ map renewed all.old }
{
    for waiting in all.iter_mut() {
        *waiting = renewed(*waiting);
    }
}
