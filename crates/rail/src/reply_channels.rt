//! The replies of one seat: what the seat took, and then what stands in the queue, is what the worker put for it.
ghost use Rattle.std.specs.Prelude.{◌≡◌, ◌<◌, [], ◌∷◌, ◌++◌, IfOk, IfErr, MatchBool, false};
ghost use Rattle.crossbeam_channel.specs.Claims.{view, IsSeatAt};
ghost use Rattle.crossbeam_channel.specs.Ends.{sends_on, receives_on};
ghost use Rattle.rail.specs.NotedReplies.{reply_sender_at};
ghost use Rattle.rail.specs.ReplyMessages.{HasGot, IsTaker, IsReplyQueue, address_of, putter, taker, unknowing};
ghost use Rattle.rail.specs.Takes.{IsTake, IsTry};
ghost use Rattle.rail.specs.Turns.{HasPutReplies};

use crate::RailFault;
use crate::limits::TRIES;
use crate::reply_messages::ReplyMessage;
use atomic_table::Split;
use crossbeam_channel::protocol::{Lesson, Outcome, Protocol};
use crossbeam_channel::{Pass, RuledReceiver, RuledSender, TryRecvError, bounded_with};
use faces::{HistoryInstance, Published};
use std::alloc::{AllocError, Global};
use std::collections::LinkedList;
use std::marker::{Brand, Model, PhantomData};
use std::sync::Wait;
use std::thread;

/// What a pass knows. No value of it is made.
pub struct ReplyKnowledge {
    pub whole: bool,
    pub puts: bool,
    pub instance: HistoryInstance,
    pub port: u64,
    pub list: LinkedList<ReplyMessage>,
}

/// The rule of a seat's replies.
pub struct ReplyRule;

impl Protocol<ReplyMessage, ReplyKnowledge> for ReplyRule {
    ghost holds = { IsReplyQueue };

    ghost first = { unknowing };
}

/// Whose replies, and at which port.
pub trait Addressed {
    ghost use Rattle.rail.specs.NotedReplies.{Address};

    ghost address: { Address };
}

impl Addressed for Brand {
    ghost use Rattle.faces.specs.Histories.{nowhere};

    ghost address = { record { instance = nowhere; port = 0 } };
}

/// The queue gets its address.
pub struct Opens<W> {
    of: PhantomData<W>,
}

impl<W: Addressed> Split<ReplyKnowledge> for Opens<W> {
    ghost left = { λ v. putter W.address [] };

    ghost right = { λ v. taker W.address [] };
}

/// A reply is put.
pub struct Puts;

impl Outcome<ReplyMessage, ReplyKnowledge> for Puts {
    ghost then = { λ v x w. w ≡ record v { list = v.list ++ x ∷ [] } };
}

impl Lesson<ReplyMessage, ReplyKnowledge> for Puts {
    ghost fact = { λ v items. Unit {0} };
}

/// A reply is taken.
pub struct Gets;

impl Outcome<ReplyMessage, ReplyKnowledge> for Gets {
    ghost then = { λ v x w. (w ≡ record v { list = v.list ++ x ∷ [] }) × (x.told.instance ≡ v.instance)
        × (x.port ≡ v.port) };
}

impl Lesson<ReplyMessage, ReplyKnowledge> for Gets {
    ghost fact = { λ v items. Unit {0} };
}

pub type ReplyMessageSender = RuledSender<ReplyMessage, ReplyKnowledge, ReplyRule>;

pub type ReplyMessageReceiver = RuledReceiver<ReplyMessage, ReplyKnowledge, ReplyRule>;

/// The worker's end of a seat's replies. Contracts see whose they are, what was put, whether one may have been handed
/// back, and whether the end is held (`ReplySenderState`).
#[derive(Drop)]
pub struct ReplySender {
    // None once the worker has stopped.
    to: Option<ReplyMessageSender>,
    pass: Pass<ReplyMessage, ReplyKnowledge>,
    gone: bool,
}

impl Model for ReplySender {
    ghost use Rattle.std.specs.Prelude.{◌≡◌, IfSome, is_some};
    ghost use Rattle.std.specs.Coded.{codes};
    ghost use Rattle.logbook.specs.Pages.{book_coded};
    ghost use Rattle.table.specs.Items.{coded_item};
    ghost use Rattle.versions.specs.Stores.{coded_items};
    ghost use Rattle.crossbeam_channel.specs.Claims as claims;
    ghost use Rattle.rail.specs.ReplyMessages.{IsPutter, reply_sender_of};
    ghost use Rattle.crossbeam_channel.specs.Claims.{IsSeatAt};
    ghost use Rattle.crossbeam_channel.specs.Ends.{sends_on};
    ghost use Rattle.rail.specs.NotedReplies.{ReplySenderState};

    ghost Value = { ReplySenderState };

    ghost coded = { Prim.hlevel (codes, coded_item, coded_items, book_coded) };

    ghost view = { λ p. reply_sender_of (claims.view p.pass) p.gone (is_some p.to) };

    ghost invariant = { λ p. IfSome p.to (λ to. IsSeatAt (sends_on to) p.pass) × IsPutter (claims.view p.pass) };
}

/// The seat's end, with its pass.
#[derive(Drop)]
pub struct ReplyReceiver {
    from: ReplyMessageReceiver,
    pub pass: Pass<ReplyMessage, ReplyKnowledge>,
    ghost seated: { IsSeatAt (receives_on from) pass },
    ghost takes: { IsTaker (view pass) },
}

// The two passes of a queue for the replies of this server at this port.
fn address<W: Addressed>(
    to: &ReplyMessageSender,
    pass: &mut Pass<ReplyMessage, ReplyKnowledge>,
    published: &Published,
    port: usize,
) -> Pass<ReplyMessage, ReplyKnowledge>
    requires seat { IsSeatAt (sends_on to.now) pass.old }
    requires first { view pass.old ≡ unknowing }
    requires address { W.address ≡ record { instance = published.now.instance; port = port } }
    ensures seat { IsSeatAt (sends_on to.now) pass.new × IsSeatAt (sends_on to.now) result }
    ensures named { (view pass.new ≡ putter W.address []) × (view result ≡ taker W.address []) }
{
    let _ = published;
    let _ = port;
    to.another::<Opens<W>>(pass)
}

/// An empty queue for the replies of this server at this port.
pub fn open(
    alloc: Global,
    room: usize,
    published: &Published,
    port: usize,
) -> Result<(ReplySender, ReplyReceiver), AllocError>
    requires { 0 < room }
    ensures reply_sender { IfOk result (λ r. r.0 ≡ reply_sender_at published.now.instance port) }
    ensures reply_receiver { IfOk result
        (λ r. view r.1.pass ≡ taker (record { instance = published.now.instance; port = port }) []) }
{
    let (to, from, mut putting) = bounded_with::<ReplyMessage, ReplyKnowledge, ReplyRule, Global>(
        alloc, room,
    )?;
    let getting = address::<Brand>(&to, &mut putting, published, port);
    let reply_sender = ReplySender {
        to: Some(to),
        pass: putting,
        gone: false,
    };
    Ok((
        reply_sender,
        ReplyReceiver {
            from,
            pass: getting,
        },
    ))
}

// Puts a reply, and says whether it did.
fn put_at<R: Wait>(
    to: &ReplyMessageSender,
    pass: &mut Pass<ReplyMessage, ReplyKnowledge>,
    rt: &R,
    reply_message: ReplyMessage,
) -> bool
    requires seat { IsSeatAt (sends_on to.now) pass.old }
    requires address { view pass.old ≡ putter (address_of reply_message) (view pass.old).list }
    ensures seat { IsSeatAt (sends_on to.now) pass.new }
    ensures put { MatchBool result (view pass.new ≡ putter (address_of reply_message)
        ((view pass.old).list ++ reply_message ∷ []))
        (view pass.new ≡ view pass.old) }
{
    to.send_as::<Puts, R>(rt, pass, reply_message).is_ok()
}

impl ReplySender {
    /// The reply is added to what was put for this seat, unless its queue hands it back. It may wait.
    pub fn put<R: Wait>(&mut self, rt: &R, reply_message: ReplyMessage)
        requires { address_of reply_message ≡ self.old.address }
        ensures put { HasPutReplies self.old self.new (reply_message ∷ []) }
    {
        match &self.to {
            Some(to) => {
                if !put_at(to, &mut self.pass, rt, reply_message) {
                    self.gone = true;
                }
            }
            None => {
                drop(reply_message);
                self.gone = true;
            }
        }
    }

    /// Nothing is put from now on, and the seat is told so.
    pub fn close(&mut self)
        ensures replies_put { HasPutReplies self.old self.new [] }
        ensures closed { self.new.held ≡ false }
    {
        self.to = None;
    }
}

impl ReplyReceiver {
    /// The next reply, if one stands there, which is added to what was taken. It doesn't wait for one. Refused with
    /// Closed if the worker has gone or stopped.
    pub fn try_take<R: Wait>(&mut self, rt: &R) -> Result<Option<ReplyMessage>, RailFault>
        ensures taken { IsTry HasGot (view self.old.pass) (view self.new.pass) result }
        ensures fault { IfErr result (λ fault. fault ≡ RailFault.Closed) }
    {
        match self.from.try_recv_as::<Gets, R>(rt, &mut self.pass) {
            Ok(reply_message) => Ok(Some(reply_message)),
            Err(TryRecvError::Empty) => Ok(None),
            Err(TryRecvError::Disconnected) => Err(RailFault::Closed),
        }
    }

    /// The next reply, which is added to what was taken. It tries a few times, and then sleeps until one comes. Refused
    /// with Closed if the worker has gone or stopped.
    pub fn take<R: Wait>(&mut self, rt: &R) -> Result<ReplyMessage, RailFault>
        ensures taken { IsTake HasGot (view self.old.pass) (view self.new.pass) result }
        ensures fault { IfErr result (λ fault. fault ≡ RailFault.Closed) }
    {
        for _ in 0..TRIES {
            if let Some(reply_message) = self.try_take(rt)? {
                return Ok(reply_message);
            }
            thread::yield_now();
        }
        match self.from.recv_as::<Gets, R>(rt, &mut self.pass) {
            Ok(reply_message) => Ok(reply_message),
            Err(_) => Err(RailFault::Closed),
        }
    }
}
