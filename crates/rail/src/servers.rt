//! A running server: its worker, and those who sit beside it.
ghost use Rattle.std.specs.Prelude.{◌≡◌, ◌⊎◌, ◌<◌, ◌≤◌, ◌+◌, ◌^◌, [], true, false, IfOk, IfErr, OnOk, MatchResult};
ghost use Rattle.crossbeam_channel.specs.Claims.{view};
ghost use Rattle.faces.specs.Readers.{yet_to_look};
ghost use Rattle.node.specs.Nodes.{is_idle};
ghost use Rattle.node.specs.Lawful.{IsLawful};
ghost use Rattle.rail.specs.CallSenders.{call_sender_at};
ghost use Rattle.rail.specs.Inbox.{taker};
ghost use Rattle.rail.specs.Inlets.{inlet_at, inlets_from};
ghost use Rattle.rail.specs.NotedReplies.{reply_sender_at};
ghost use Rattle.rail.specs.Servers.{
  IsOpened,
  history_at,
  reply_senders_from,
  seat_at,
  seats_from,
  thread_handle_at,
  thread_handles_from,
};

use crate::RailFault;
use crate::call_notes::CallNote;
use crate::call_senders::CallSender;
use crate::inbox::InboxBuilder;
use crate::inlets::Inlet;
use crate::limits::{CALLS, REPLIES};
use crate::reply_channels::{ReplySender, open as open_queue};
use crate::rooms::Room;
use crate::seats::Seat;
use crate::thread_handles::ThreadHandle;
use crate::workers::Worker;
use faces::{Published, Publisher, Reader};
use node::Node;
use std::alloc::{AllocError, Global};
use std::sync::Wait;

/// A running server: its worker, a thread handle for each reader, seats of threads that have a thread handle, and
/// inlets.
#[derive(Drop)]
pub struct Server<R: Wait + Drop> {
    pub worker: Worker<R>,
    pub thread_handles: Vec<ThreadHandle>,
    pub seats: Vec<Seat>,
    pub inlets: Vec<Inlet>,
}

/// Opens a server that begins as this node: a worker, a reader, a seat and a sender of calls for each of n threads, at
/// ports 0, 1 and so on, further seats at the ports after those, and inlets. Each sender may send the calls of each
/// seat. Its node may hold items already. Its inbox has this room. Refused with NoReader if its publisher could make no
/// reader, and otherwise with Memory. Each publish takes time linear in the readers, and not in the seats.
pub fn open<R: Wait + Drop>(
    rt: R,
    alloc: Global,
    node: Node,
    readers: usize,
    more: usize,
    inlets: usize,
    room: Room,
) -> Result<Server<R>, RailFault>
    requires readers { 1 ≤ readers }
    requires seats { (readers ≤ 16) × (readers + more ≤ 64) }
    requires inlets { (1 ≤ inlets) × (inlets ≤ 16) }
    requires idle { is_idle node ≡ true }
    ensures { MatchResult result
        (λ s. IsOpened node readers more inlets s.worker s.thread_handles.items s.seats.items s.inlets.items)
        (λ fault. (fault ≡ RailFault.Memory) ⊎ (fault ≡ RailFault.NoReader)) }
{
    hold_lawful(&node);
    let mut inbox_builder = InboxBuilder::new(alloc, room)?;
    let Ok(mut publisher) = Publisher::open(&rt, alloc, node, readers) else {
        drop(inbox_builder);
        return Err(RailFault::Memory);
    };
    match beside(
        alloc,
        &mut publisher,
        &mut inbox_builder,
        readers,
        more,
        inlets,
    ) {
        Ok((thread_handles, seats, reply_senders, inlets)) => {
            let worker = Worker::new(rt, inbox_builder.close(), publisher, reply_senders);
            Ok(Server {
                worker,
                thread_handles,
                seats,
                inlets,
            })
        }
        Err(fault) => {
            publisher.end(&rt);
            drop(inbox_builder);
            Err(fault)
        }
    }
}

// The server of an idle node is lawful, as the node's type keeps.
fn hold_lawful(node: &Node)
    requires { is_idle node.now ≡ true }
    ensures { (node.now.stopped ≡ false) × IsLawful node.now.server }
{
    let _idle = node.is_idle();
}

// Those who sit beside the worker, and its reply senders.
fn beside(
    alloc: Global,
    publisher: &mut Publisher,
    inbox_builder: &mut InboxBuilder,
    readers: usize,
    more: usize,
    inlets: usize,
) -> Result<(Vec<ThreadHandle>, Vec<Seat>, Vec<ReplySender>, Vec<Inlet>), RailFault>
    requires inbox_builder { view inbox_builder.old.pass ≡ taker 0 0 [] }
    requires few { (readers ≤ 16) × (readers + more ≤ 64) × (inlets ≤ 16) }
    requires first { publisher.old.published.inputs ≡ [] }
    ensures publisher { publisher.new ≡ publisher.old }
    ensures inbox_builder { IfOk result
        (λ _. ((view inbox_builder.new.pass).ports ≡ readers + more) × ((view inbox_builder.new.pass).got ≡ [])) }
    ensures inbox { OnOk result (inbox_builder.new.pass.table_id ≡ inbox_builder.old.pass.table_id) }
    ensures thread_handles { IfOk result
        (λ r. r.0.items ≡ thread_handles_from publisher.old.published.instance inbox_builder.old.pass.table_id 0
        readers) }
    ensures seats { IfOk result (λ r. r.1.items ≡ seats_from publisher.old.published.instance readers more) }
    ensures reply_senders { IfOk result (λ r. r.2.items ≡ reply_senders_from publisher.old.published.instance 0
        (readers + more)) }
    ensures inlets { IfOk result (λ r. r.3.items ≡ inlets_from inbox_builder.old.pass.table_id readers inlets) }
    ensures fault { IfErr result (λ fault. (fault ≡ RailFault.Memory) ⊎ (fault ≡ RailFault.NoReader)) }
{
    add_ports(inbox_builder, readers + more);
    let (thread_handles, mut reply_senders) = all_thread_handles(
        alloc,
        publisher,
        inbox_builder,
        readers,
    )?;
    let seats = more_seats(
        alloc,
        publisher.published(),
        &mut reply_senders,
        readers,
        more,
    )?;
    let inlets = all_inlets(alloc, inbox_builder, inlets)?;
    Ok((thread_handles, seats, reply_senders, inlets))
}

// An inbox without senders gets n ports.
fn add_ports(inbox_builder: &mut InboxBuilder, count: usize)
    requires inbox_builder { view inbox_builder.old.pass ≡ taker 0 0 [] }
    requires few { count ≤ 64 }
    ensures inbox_builder { view inbox_builder.new.pass ≡ taker 0 count [] }
    ensures inbox { inbox_builder.new.pass.table_id ≡ inbox_builder.old.pass.table_id }
{
    for _ in 0..count {
        inbox_builder.add_port();
    }
}

// The thread handles of the first n ports, and their reply senders.
fn all_thread_handles(
    alloc: Global,
    publisher: &mut Publisher,
    inbox_builder: &mut InboxBuilder,
    readers: usize,
) -> Result<(Vec<ThreadHandle>, Vec<ReplySender>), RailFault>
    requires inbox_builder { view inbox_builder.old.pass ≡ taker 0 (view inbox_builder.old.pass).ports [] }
    requires few { readers ≤ 16 }
    requires first { publisher.old.published.inputs ≡ [] }
    ensures publisher { publisher.new ≡ publisher.old }
    ensures inbox_builder { IfOk result
        (λ _. view inbox_builder.new.pass ≡ taker readers (view inbox_builder.old.pass).ports []) }
    ensures inbox { OnOk result (inbox_builder.new.pass.table_id ≡ inbox_builder.old.pass.table_id) }
    ensures thread_handles { IfOk result
        (λ r. r.0.items ≡ thread_handles_from publisher.old.published.instance inbox_builder.old.pass.table_id 0
        readers) }
    ensures reply_senders { IfOk result
        (λ r. r.1.items ≡ reply_senders_from publisher.old.published.instance 0 readers) }
    ensures fault { IfErr result (λ fault. (fault ≡ RailFault.Memory) ⊎ (fault ≡ RailFault.NoReader)) }
{
    let mut thread_handles = Vec::new(alloc);
    let mut reply_senders = Vec::new(alloc);
    for port in 0..readers {
        let (thread_handle, reply_sender) = one_thread_handle(
            alloc,
            publisher,
            inbox_builder,
            port,
        )?;
        thread_handles.push(thread_handle)?;
        reply_senders.push(reply_sender)?;
    }
    Ok((thread_handles, reply_senders))
}

// The thread handle of a port, and its reply sender.
fn one_thread_handle(
    alloc: Global,
    publisher: &mut Publisher,
    inbox_builder: &mut InboxBuilder,
    port: usize,
) -> Result<(ThreadHandle, ReplySender), RailFault>
    requires inbox_builder { view inbox_builder.old.pass ≡ taker port (view inbox_builder.old.pass).ports [] }
    requires few { port < 64 }
    requires first { publisher.old.published.inputs ≡ [] }
    ensures publisher { publisher.new ≡ publisher.old }
    ensures inbox_builder { IfOk result
        (λ _. view inbox_builder.new.pass ≡ taker (port + 1) (view inbox_builder.old.pass).ports []) }
    ensures inbox { OnOk result (inbox_builder.new.pass.table_id ≡ inbox_builder.old.pass.table_id) }
    ensures thread_handle { IfOk result (λ r. r.0 ≡ thread_handle_at publisher.old.published.instance
        inbox_builder.old.pass.table_id port) }
    ensures reply_sender { IfOk result (λ r. r.1 ≡ reply_sender_at publisher.old.published.instance port) }
    ensures fault { IfErr result (λ fault. (fault ≡ RailFault.Memory) ⊎ (fault ≡ RailFault.NoReader)) }
{
    let reader = one_reader(publisher)?;
    let made = thread_handle_of(alloc, reader, publisher.published(), inbox_builder, port)?;
    Ok(made)
}

// One more reader.
fn one_reader(publisher: &mut Publisher) -> Result<Reader, RailFault>
    ensures reader { IfOk result (λ reader. reader ≡ yet_to_look publisher.old.published) }
    ensures publisher { publisher.new ≡ publisher.old }
    ensures fault { IfErr result (λ fault. fault ≡ RailFault.NoReader) }
{
    match publisher.reader() {
        Ok(reader) => Ok(reader),
        Err(_) => Err(RailFault::NoReader),
    }
}

// The thread handle of a reader at a port, and its reply sender.
fn thread_handle_of(
    alloc: Global,
    reader: Reader,
    published: &Published,
    inbox_builder: &mut InboxBuilder,
    port: usize,
) -> Result<(ThreadHandle, ReplySender), AllocError>
    requires inbox_builder { view inbox_builder.old.pass ≡ taker port (view inbox_builder.old.pass).ports [] }
    requires few { port < 64 }
    requires reader { reader ≡ yet_to_look published.now }
    requires first { published.now.inputs ≡ [] }
    ensures inbox_builder { IfOk result
        (λ _. view inbox_builder.new.pass ≡ taker (port + 1) (view inbox_builder.old.pass).ports []) }
    ensures inbox { OnOk result (inbox_builder.new.pass.table_id ≡ inbox_builder.old.pass.table_id) }
    ensures thread_handle { IfOk result
        (λ r. r.0 ≡ thread_handle_at published.now.instance inbox_builder.old.pass.table_id port) }
    ensures reply_sender { IfOk result (λ r. r.1 ≡ reply_sender_at published.now.instance port) }
{
    let (seat, reply_sender) = one_seat(alloc, published, port)?;
    let call_sender = one_call_sender(published, inbox_builder)?;
    let thread_handle = ThreadHandle {
        reader,
        seat,
        call_sender,
    };
    Ok((thread_handle, reply_sender))
}

// One more sender of calls.
fn one_call_sender(
    published: &Published,
    inbox_builder: &mut InboxBuilder,
) -> Result<CallSender, AllocError>
    requires { (view inbox_builder.old.pass).made < 2 ^ 63 }
    ensures inbox_builder { IfOk result (λ _. view inbox_builder.new.pass ≡
        taker ((view inbox_builder.old.pass).made + 1) (view inbox_builder.old.pass).ports []) }
    ensures inbox { OnOk result (inbox_builder.new.pass.table_id ≡ inbox_builder.old.pass.table_id) }
    ensures call_sender { IfOk result (λ call_sender. call_sender ≡
        call_sender_at published.now.instance inbox_builder.old.pass.table_id (view inbox_builder.old.pass).made) }
{
    let inbox_sender = inbox_builder.caller()?;
    Ok(CallSender::new(published, inbox_sender))
}

// The seat of a port, and its reply sender.
fn one_seat(
    alloc: Global,
    published: &Published,
    port: usize,
) -> Result<(Seat, ReplySender), AllocError>
    ensures seat { IfOk result (λ r. r.0 ≡ seat_at published.now.instance port) }
    ensures reply_sender { IfOk result (λ r. r.1 ≡ reply_sender_at published.now.instance port) }
{
    let calls = no_calls(alloc, CALLS)?;
    let (reply_sender, reply_receiver) = open_queue(alloc, REPLIES, published, port)?;
    Ok((Seat::new(port, calls, reply_receiver), reply_sender))
}

// Room for the notes of as many calls as this, which have no bytes.
fn no_calls(alloc: Global, room: usize) -> Result<Vec<CallNote>, AllocError>
    ensures { IfOk result (λ calls. calls.items ≡ []) }
{
    let calls = Vec::with_capacity(alloc, room)?;
    Ok(calls)
}

// Further seats, from port `first` on. Their reply senders come after those so far.
fn more_seats(
    alloc: Global,
    published: &Published,
    reply_senders: &mut Vec<ReplySender>,
    first: usize,
    count: usize,
) -> Result<Vec<Seat>, AllocError>
    requires few { first + count ≤ 64 }
    requires reply_senders { reply_senders.old.items ≡ reply_senders_from published.now.instance 0 first }
    ensures seats { IfOk result (λ seats. seats.items ≡ seats_from published.now.instance first count) }
    ensures reply_senders { IfOk result (λ _. reply_senders.new.items ≡ reply_senders_from published.now.instance 0
        (first + count)) }
{
    let mut seats = Vec::new(alloc);
    for k in 0..count {
        let (seat, reply_sender) = one_seat(alloc, published, first + k)?;
        seats.push(seat)?;
        reply_senders.push(reply_sender)?;
    }
    Ok(seats)
}

// Inlets, as many as asked for, numbered after the senders so far.
fn all_inlets(
    alloc: Global,
    inbox_builder: &mut InboxBuilder,
    count: usize,
) -> Result<Vec<Inlet>, AllocError>
    requires few { ((view inbox_builder.old.pass).made ≤ 16) × (count ≤ 16) }
    requires inbox_builder { view inbox_builder.old.pass ≡ taker (view inbox_builder.old.pass).made
        (view inbox_builder.old.pass).ports [] }
    ensures inbox_builder { IfOk result
        (λ _. ((view inbox_builder.new.pass).ports ≡ (view inbox_builder.old.pass).ports)
        × ((view inbox_builder.new.pass).got ≡ [])) }
    ensures inbox { OnOk result (inbox_builder.new.pass.table_id ≡ inbox_builder.old.pass.table_id) }
    ensures inlets { IfOk result
        (λ inlets. inlets.items ≡ inlets_from inbox_builder.old.pass.table_id (view inbox_builder.old.pass).made
        count) }
{
    let mut inlets = Vec::new(alloc);
    for _ in 0..count {
        let inlet = one_inlet(inbox_builder)?;
        inlets.push(inlet)?;
    }
    Ok(inlets)
}

// One more inlet.
fn one_inlet(inbox_builder: &mut InboxBuilder) -> Result<Inlet, AllocError>
    requires { (view inbox_builder.old.pass).made < 2 ^ 63 }
    ensures inbox_builder { IfOk result (λ _. view inbox_builder.new.pass ≡
        taker ((view inbox_builder.old.pass).made + 1) (view inbox_builder.old.pass).ports []) }
    ensures inbox { OnOk result (inbox_builder.new.pass.table_id ≡ inbox_builder.old.pass.table_id) }
    ensures inlet { IfOk result (λ inlet. inlet ≡ inlet_at inbox_builder.old.pass.table_id
        (view inbox_builder.old.pass).made) }
{
    let inbox_sender = inbox_builder.inlet()?;
    Ok(Inlet::new(inbox_sender))
}
