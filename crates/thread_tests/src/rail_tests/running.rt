//! A running server that takes one step after another, each of which has to go as it says.
ghost use Rattle.std.specs.Prelude.{◌≡◌, ◌≤◌, true, All, IfOk};
ghost use Rattle.node.specs.Nodes.{is_idle};
ghost use Rattle.seats.specs.Replies.{HasAllReplies};

use faces::FaceFault;
use node::{Body, Look, Node, Peer, View};
use rail::{
    CallSender, Inlet, Links, Published, RailFault, Reader, Room, Seat, Server, ThreadHandle, Told,
    Turn, Weight, Worker, open,
};
use std::alloc::Global;
use std::sync::Wait;
use table::{Call, Item, Key, Op, Reply, SharedBytes, Target};

/// What the worker, the last thread handle or the last inlet of a server does, and how that goes.
#[derive(Clone, Copy)]
pub(crate) enum Step {
    /// The worker waits for a message, and its turn is this one.
    Turns(Turn),
    /// The worker finds a message, and its turn is this one; or it finds none.
    TurnsIfAny(Option<Turn>),
    /// The worker weighs this.
    Weighs(Weight),
    /// Since it was last asked, the worker has replied at port 0 or not, at port 1 or not, and at no other.
    Replied(bool, bool),
    /// The thread handle sends a set of `a`.
    Submits,
    /// The thread handle waits for the reply to that, and sees what it wrote.
    SeesItsWrite,
    /// The thread handle finds that reply, and sees what it wrote; or it finds none.
    SeesIfAny(bool),
    /// The thread handle waits for a reply, and is told that none comes.
    IsClosed,
    /// The inlet brings this.
    Brings(News),
}

/// What an inlet brings of server 1, and to the worker.
#[derive(Clone, Copy)]
pub(crate) enum News {
    /// An acknowledgement of all entries up to this one.
    Ack(u64),
    /// That it has failed.
    Gone,
    Stop,
    End,
}

/// Whether all steps of the first of n servers, with handles for this many threads and one inlet, go as they say.
pub(crate) fn all_go<R: Wait + Drop + Copy>(
    rt: R,
    alloc: Global,
    count: u8,
    readers: usize,
    steps: &[Step],
) -> Result<bool, RailFault>
    requires { (1 ≤ readers) × (readers ≤ 16) }
{
    all_go_with(rt, alloc, count, readers, Room::of_chain(16, 16), steps)
}

/// The same, with this room in the server's inbox.
pub(crate) fn all_go_with<R: Wait + Drop + Copy>(
    rt: R,
    alloc: Global,
    count: u8,
    readers: usize,
    room: Room,
    steps: &[Step],
) -> Result<bool, RailFault>
    requires { (1 ≤ readers) × (readers ≤ 16) }
{
    let mut server = first_with(rt, alloc, count, readers, room)?;
    let went = go_on(&rt, alloc, &mut server, steps);
    drop(server);
    went
}

/// Whether all of these go as they say, one after another.
pub(crate) fn go_on<R: Wait + Drop>(
    rt: &R,
    alloc: Global,
    server: &mut Server<R>,
    steps: &[Step],
) -> Result<bool, RailFault> {
    for step in steps {
        if !goes(rt, alloc, server, *step)? {
            return Ok(false);
        }
    }
    Ok(true)
}

fn goes<R: Wait + Drop>(
    rt: &R,
    alloc: Global,
    server: &mut Server<R>,
    step: Step,
) -> Result<bool, RailFault> {
    match step {
        Step::Turns(turn) => turns(&mut server.worker, turn),
        Step::TurnsIfAny(turn) => turns_if_any(&mut server.worker, turn),
        Step::Weighs(weight) => Ok(server.worker.weight() == weight),
        Step::Replied(first, second) => Ok(replied(&mut server.worker, first, second)),
        Step::Submits => submits(rt, alloc, &mut server.thread_handles),
        Step::SeesItsWrite => sees_its_write(rt, alloc, &mut server.thread_handles),
        Step::SeesIfAny(any) => Ok(
            sees_if_any(rt, alloc, &mut server.thread_handles)? == any.then_some(true),
        ),
        Step::IsClosed => Ok(is_closed(rt, alloc, &mut server.thread_handles)),
        Step::Brings(news) => Ok(brings(rt, &mut server.inlets, news)),
    }
}

// --- those of a server

fn idle_node(alloc: Global, count: u8) -> Result<Node, RailFault>
    ensures { IfOk result (λ node. is_idle node ≡ true) }
{
    match Node::new(alloc, 0, count) {
        Ok(node) => {
            if node.is_idle() {
                Ok(node)
            } else {
                drop(node);
                Err(RailFault::Closed)
            }
        }
        Err(_) => Err(RailFault::Closed),
    }
}

/// The first of n servers, with handles for this many threads and one inlet.
pub(crate) fn first_of<R: Wait + Drop + Copy>(
    rt: R,
    alloc: Global,
    count: u8,
    readers: usize,
) -> Result<Server<R>, RailFault>
    requires { (1 ≤ readers) × (readers ≤ 16) }
    ensures { IfOk result (λ server. All (λ handle. HasAllReplies handle.seat) server.thread_handles.items) }
{
    first_with(rt, alloc, count, readers, Room::of_chain(16, 16))
}

/// The same, with this room in its inbox.
#[tactic(auto, using(crate::proofs::Opened::opened_replied))]
pub(crate) fn first_with<R: Wait + Drop + Copy>(
    rt: R,
    alloc: Global,
    count: u8,
    readers: usize,
    room: Room,
) -> Result<Server<R>, RailFault>
    requires { (1 ≤ readers) × (readers ≤ 16) }
    ensures { IfOk result (λ server. All (λ handle. HasAllReplies handle.seat) server.thread_handles.items) }
{
    let node = idle_node(alloc, count)?;
    let server = open(rt, alloc, node, readers, 0, 1, room)?;
    Ok(server)
}

/// The first of n servers, with two inlets.
pub(crate) fn first_with_two_inlets<R: Wait + Drop + Copy>(
    rt: R,
    alloc: Global,
    count: u8,
) -> Result<Server<R>, RailFault> {
    let node = idle_node(alloc, count)?;
    let server = open(rt, alloc, node, 1, 0, 2, Room::of_chain(16, 16))?;
    Ok(server)
}

// --- the worker

// Links that are down.
#[derive(Drop)]
struct Down {
    failures: u64,
}

impl Links for Down {
    ghost use Rattle.std.specs.Prelude.{[]};

    ghost Carried = { Unit {0} };

    ghost state = { λ s. record {
      list = [];
      failures = λ j. s.failures;
      carried = λ j. [];
      spelled = λ peer. [];
    } };

    fn failed(&self, _to: u8) -> bool {
        self.failures > 0
    }

    fn put(&mut self, _published: &Published, _to: u8, peer: Peer) -> Result<(), RailFault> {
        drop(peer);
        self.failures = 1;
        Err(RailFault::LinkDown)
    }
}

fn no_links() -> Down {
    Down { failures: 1 }
}

pub(crate) fn turns<R: Wait + Drop>(worker: &mut Worker<R>, turn: Turn) -> Result<bool, RailFault> {
    Ok(worker.turn(&mut no_links())? == turn)
}

fn turns_if_any<R: Wait + Drop>(
    worker: &mut Worker<R>,
    turn: Option<Turn>,
) -> Result<bool, RailFault> {
    Ok(worker.turn_if_any(&mut no_links())? == turn)
}

// Whether the worker has replied at port 0 or not, at port 1 or not, and at no other.
fn replied<R: Wait + Drop>(worker: &mut Worker<R>, first: bool, second: bool) -> bool {
    let ports = worker.take_replied();
    let (has_first, has_second) = (ports.has(0), ports.has(1));
    has_first == first
        && has_second == second
        && !ports.has(2)
        && ports.is_empty() != (first || second)
}

// --- the thread handle

pub(crate) fn key(alloc: Global, bytes: &[u8]) -> Result<Key, RailFault> {
    match Key::new(alloc, bytes)? {
        Some(key) => Ok(key),
        None => Err(RailFault::Closed),
    }
}

fn set_of_a(alloc: Global) -> Result<Call, RailFault> {
    let key = key(alloc, b"a")?;
    match SharedBytes::copy_from_slice(alloc, b"v") {
        Ok(bytes) => Ok(Call {
            target: Target::One(key),
            op: Op::Set(0, bytes),
        }),
        Err(_) => {
            drop(key);
            Err(RailFault::Memory)
        }
    }
}

// Whether a sender sends a call of this seat, which has to be one that may be asked.
fn sends<R: Wait>(rt: &R, call_sender: &mut CallSender, seat: &mut Seat, call: Call) -> bool
    requires { seat.old.instance ≡ call_sender.old.instance }
    ensures seat { seat.new.instance ≡ seat.old.instance }
    ensures sender { call_sender.new.instance ≡ call_sender.old.instance }
{
    if call.op.fits() && call.op.suits(&call.target) {
        match call_sender.submit(rt, seat, call) {
            Ok(()) => true,
            Err(back) => {
                drop(back);
                false
            }
        }
    } else {
        drop(call);
        false
    }
}

pub(crate) fn submits<R: Wait>(
    rt: &R,
    alloc: Global,
    thread_handles: &mut Vec<ThreadHandle>,
) -> Result<bool, RailFault> {
    match thread_handles.last_mut() {
        Some(thread_handle) => {
            let call = set_of_a(alloc)?;
            Ok(sends(
                rt,
                &mut thread_handle.call_sender,
                &mut thread_handle.seat,
                call,
            ))
        }
        None => Err(RailFault::NoReader),
    }
}

fn is_v(look: &Look<Item>) -> bool {
    match look {
        Look::Clean(Some(item)) => {
            item.flags() == 0 && item.bytes().as_slice() == b"v".as_slice() && item.unique() == 1
        }
        Look::Clean(None) | Look::Dirty => false,
    }
}

// Whether a reader finds what was set at a key.
fn finds_v(reader: &mut Reader, key: &Key) -> Result<bool, RailFault>
    ensures { reader.new.seen.instance ≡ reader.old.seen.instance }
{
    match reader.look(key) {
        Ok(look) => {
            let is_v = is_v(&look);
            drop(look);
            Ok(is_v)
        }
        Err(FaceFault::Memory) => Err(RailFault::Memory),
        Err(FaceFault::Closed) => Err(RailFault::Closed),
    }
}

// Whether a reader finds what was set.
fn finds_a(alloc: Global, reader: &mut Reader) -> Result<bool, RailFault>
    ensures { reader.new.seen.instance ≡ reader.old.seen.instance }
{
    let a = key(alloc, b"a")?;
    finds_v(reader, &a)
}

// Whether this is the reply to the set of `a`, and a reader that learns its note finds what was set.
fn is_its_write(
    alloc: Global,
    reader: &mut Reader,
    reply: Reply,
    told: Told,
) -> Result<bool, RailFault>
    requires { told.instance ≡ reader.old.seen.instance }
    ensures { reader.new.seen.instance ≡ reader.old.seen.instance }
{
    let stored = matches!(reply, Reply::Stored);
    drop(reply);
    reader.learn(told);
    if stored {
        finds_a(alloc, reader)
    } else {
        Ok(false)
    }
}

fn sees_its_write<R: Wait>(
    rt: &R,
    alloc: Global,
    thread_handles: &mut Vec<ThreadHandle>,
) -> Result<bool, RailFault> {
    let Some(thread_handle) = thread_handles.last_mut() else {
        return Err(RailFault::NoReader);
    };
    match thread_handle.seat.reply(rt) {
        Ok((reply, told)) => is_its_write(alloc, &mut thread_handle.reader, reply, told),
        Err(fault) => Err(fault),
    }
}

fn sees_if_any<R: Wait>(
    rt: &R,
    alloc: Global,
    thread_handles: &mut Vec<ThreadHandle>,
) -> Result<Option<bool>, RailFault> {
    let Some(thread_handle) = thread_handles.last_mut() else {
        return Err(RailFault::NoReader);
    };
    match thread_handle.seat.reply_if_any(rt) {
        Ok(Some((reply, told))) => {
            let sees = is_its_write(alloc, &mut thread_handle.reader, reply, told)?;
            Ok(Some(sees))
        }
        Ok(None) => Ok(None),
        Err(fault) => Err(fault),
    }
}

pub(crate) fn is_closed<R: Wait>(
    rt: &R,
    alloc: Global,
    thread_handles: &mut Vec<ThreadHandle>,
) -> bool {
    sees_its_write(rt, alloc, thread_handles) == Err(RailFault::Closed)
}

// --- the inlet

pub(crate) fn brings<R: Wait>(rt: &R, inlets: &mut Vec<Inlet>, news: News) -> bool {
    match inlets.last_mut() {
        Some(inlet) => hands_on(rt, inlet, news).is_ok(),
        None => false,
    }
}

fn hands_on<R: Wait>(rt: &R, inlet: &mut Inlet, news: News) -> Result<(), RailFault> {
    match news {
        News::Ack(number) => {
            let ack = Peer {
                view: View::empty(),
                body: Body::Ack(number),
            };
            inlet.bring(rt, 1, ack)
        }
        News::Gone => inlet.gone(rt, 1),
        News::Stop => inlet.stop(rt),
        News::End => inlet.end(rt),
    }
}
