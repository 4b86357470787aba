//! Connections that don't wait for each other.
ghost use Rattle.std.specs.Prelude.{◌≡◌, ◌++◌, ◌∷◌, [], ℕ, false, IfSome, OnOk, OnErr};
ghost use Rattle.node.specs.Nodes.{fresh};
ghost use Rattle.io_threads.specs.Pools.{BeginsAs};
ghost use Rattle.in_process_links.specs.ServerSets.{has_server};

use craq_process::{
    Concurrency, Ending, Opened, ScheduledLinks, Scheduler, idle_node, open_server,
};
use crossbeam_channel::{Receiver, Sender, unbounded};
use in_process_links::ServerSet;
use io_threads::{
    FrontEnd, FrontEndServer, FrontEndSettings, LoopHandles, NoGuests, Pooled, SeatDeal,
    SeatShares, TurnScheduler, open_front_end, open_loop_handles,
};
use mio::Poll;
use node::Peer;
use rail::{Inlet, Links, Published, RailFault};
use seats::SeatPool;
use server_guards::{Allowance, Mark, OutputPermit};
use std::alloc::{AllocError, Global};
use std::io::Write;
use std::marker::Model;
use std::net::{Net, TcpListener, TcpStream};
use std::sync::{Arc, Wait};
use std::test::Fail;
use std::thread::Threads;
use std::time::{Clock, Duration};
use tests_support::{answers, client, listen, says};

// The most turns of one visit.
const TURNS: usize = 64;

// A message that a barrier took. It may be handed in where it goes.
#[derive(Drop)]
struct Kept {
    peer: Peer,
}

impl Model for Kept {
    ghost use Rattle.node.specs.declared.messages.Peer.{Peer};
    ghost use Rattle.node.specs.Lawful.{IsBody};

    ghost Value = { Peer };

    ghost view = { λ kept. kept.peer };

    ghost invariant = { λ kept. IsBody kept.peer.body };
}

impl Kept {
    ghost use Rattle.node.specs.Lawful.{IsBody};

    fn into_peer(self) -> Peer
        ensures { IsBody result.body }
    {
        self.peer
    }
}

// Links that keep what is put, and return at once. What they keep comes to the other end of the channel, whose holder
// opens the barrier by bringing it on.
#[derive(Drop)]
struct Barrier<R: Wait + Drop> {
    rt: R,
    kept: Sender<Kept>,
    // The same messages, for contracts.
    put: Vec<(u8, Peer)>,
    // The servers whose worker got one: none does.
    reached: ServerSet,
    ghost none: { (j : ℕ) → has_server reached j ≡ false },
}

impl<R: Wait + Drop> Links for Barrier<R> {
    ghost use Rattle.std.specs.Prelude.{[]};

    ghost Carried = { Unit {0} };

    ghost state = { λ barrier. record {
      list = barrier.put.items;
      failures = λ server. 0;
      carried = λ server. [];
      spelled = λ peer. [];
    } };

    fn failed(&self, _to: u8) -> bool {
        false
    }

    fn put(&mut self, _published: &Published, to: u8, peer: Peer) -> Result<(), RailFault> {
        let noted = note(&mut self.put, to, &peer);
        let kept = Kept { peer };
        match noted {
            Ok(()) => {
                keep(&self.rt, &self.kept, kept);
                Ok(())
            }
            Err(error) => {
                drop(kept);
                Err(RailFault::from(error))
            }
        }
    }
}

impl<R: Wait + Drop> ScheduledLinks for Barrier<R> {
    ghost use Rattle.std.specs.Prelude.{[], true};

    ghost may_be_of = { λ barrier id. true };

    ghost reached = { λ barrier. barrier.reached };

    ghost waiting = { λ barrier server. [] };

    ghost stays_own = { λ before after id same own. own };

    fn take_reached(&mut self) -> ServerSet {
        self.reached
    }

    // What was put is with who holds the barrier.
    fn write_out(&mut self) -> bool {
        false
    }
}

// Notes what was put.
fn note(put: &mut Vec<(u8, Peer)>, to: u8, peer: &Peer) -> Result<(), AllocError>
    ensures ok { OnOk result (put.new.items ≡ put.old.items ++ (to, peer.now) ∷ []) }
    ensures err { OnErr result (put.new.items ≡ put.old.items) }
{
    let message = (to, peer.clone()?);
    Ok(put.push(message)?)
}

// Gives a message to who holds the barrier.
fn keep<R: Wait>(rt: &R, barrier: &Sender<Kept>, kept: Kept) {
    drop(barrier.send(rt, kept));
}

// A chain of two whose servers keep their messages at barriers. One thread serves the head's clients, with one seat, and
// takes the head's turns. Those of the tail are taken by the test.
#[derive(Drop)]
struct HeldChain<R: Wait + Drop>
where
    Barrier<R>: ScheduledLinks,
{
    port: u16,
    front_end: FrontEnd,
    // Of the thread that serves the head's clients, which is woken when they have replies.
    loop_handles: Arc<LoopHandles, Global>,
    head: Arc<Scheduler<R, Barrier<R>>, Global>,
    // Where the head is brought what the tail puts, and that.
    to_head: Vec<Inlet>,
    from_tail: Receiver<Kept>,
    tail: Scheduler<R, Barrier<R>>,
    to_tail: Vec<Inlet>,
    from_head: Receiver<Kept>,
}

// A set whose message stays on its link keeps no read of another connection of its thread waiting.
#[test]
fn held_link_holds_no_reader(rt: HostRuntime) -> Result<(), Fail> {
    let mut chain = held_chain(rt, rt.alloc()).ok_or("a chain")?;
    assert!(rt; passes_by(&rt, &mut chain));
    chain.front_end.end(&rt);
    Ok(())
}

// Whether a read is answered while the set of another connection is held, and the set once its message is brought on.
fn passes_by<R: Wait + Clock + Net<Listener = TcpListener, Stream = TcpStream> + Drop>(
    rt: &R,
    chain: &mut HeldChain<R>,
) -> bool {
    let Ok(mut first) = client(rt, chain.port) else {
        return false;
    };
    let Ok(mut second) = client(rt, chain.port) else {
        return false;
    };
    first.write_all(b"set a 0 0 1\r\n1\r\n").is_ok()
        && reads_beside(rt, chain, &mut second)
        && says(&mut first, b"STORED\r\n")
}

// Whether a read is answered while a message is held, which is brought on then.
fn reads_beside<R: Wait + Clock + Drop>(
    rt: &R,
    chain: &mut HeldChain<R>,
    stream: &mut TcpStream,
) -> bool {
    let Ok(kept) = chain.from_head.recv_timeout(rt, Duration::from_secs(50)) else {
        return false;
    };
    let answered = answers(stream, b"get b\r\n", b"END\r\n");
    let brought = brings(rt, chain, kept);
    answered && brought
}

// Whether a message of the head is brought to the tail, whose answer is brought to the head then.
fn brings<R: Wait + Clock + Drop>(rt: &R, chain: &mut HeldChain<R>, kept: Kept) -> bool {
    if !is_brought(rt, &mut chain.to_tail, 0, kept) {
        return false;
    }
    chain.tail.take_turns(0, TURNS);
    let Ok(answer) = chain.from_tail.recv_timeout(rt, Duration::from_secs(50)) else {
        return false;
    };
    let brought = is_brought(rt, &mut chain.to_head, 1, answer);
    chain.head.expect(0);
    let visit = chain.head.take_turns(0, TURNS);
    chain.loop_handles.wake(0, visit.replied);
    brought
}

// Whether a message of this server is brought by the first of these inlets.
fn is_brought<R: Wait>(rt: &R, inlets: &mut Vec<Inlet>, from: u8, kept: Kept) -> bool {
    match inlets.get_mut(0) {
        Some(inlet) => inlet.bring(rt, from, kept.into_peer()).is_ok(),
        None => {
            drop(kept);
            false
        }
    }
}

fn held_chain<
    R: Wait
        + Threads
        + Clock
        + Net<Listener = TcpListener, Stream = TcpStream>
        + Copy
        + Drop
        + Send
        + 'static,
>(rt: R, alloc: Global) -> Option<HeldChain<R>> {
    let (loop_handles, polls) = shared_loop_handles(&rt, alloc)?;
    let (tail, to_tail, from_tail) = scheduled_server(rt, alloc, 1, &loop_handles)?;
    let (head, to_head, from_head) = scheduled_server(rt, alloc, 0, &loop_handles)?;
    let Scheduled {
        scheduler,
        pools,
        failed,
    } = head;
    let head = Arc::new(alloc, scheduler).ok()?;
    let (port, front_end) = serve(rt, alloc, &head, &loop_handles, polls, pools, failed)?;
    let Scheduled {
        scheduler: tail,
        ..
    } = tail;
    Some(HeldChain {
        port,
        front_end,
        loop_handles,
        head,
        to_head,
        from_tail,
        tail,
        to_tail,
        from_head,
    })
}

// A server whose turns are scheduled, with its seats, and the mark that its clients look at.
#[derive(Drop)]
struct Scheduled<R: Wait + Drop>
where
    Barrier<R>: ScheduledLinks,
{
    scheduler: Scheduler<R, Barrier<R>>,
    pools: Vec<SeatPool>,
    failed: Mark,
}

// The loop handle of one thread, and what that polls.
fn shared_loop_handles<R: Net>(
    rt: &R,
    alloc: Global,
) -> Option<(Arc<LoopHandles, Global>, Vec<Poll>)> {
    let shares = SeatShares {
        threads: 1,
        deal: SeatDeal::InTurn,
    };
    let (loop_handles, polls) = open_loop_handles(rt, alloc, shares).ok()?;
    let loop_handles = Arc::new(alloc, loop_handles).ok()?;
    Some((loop_handles, polls))
}

// Server `id` of two, before any input.
fn opened_server<R: Wait + Threads + Copy + Drop>(rt: R, alloc: Global, id: u8) -> Option<Opened<R>>
    ensures { IfSome result (λ opened. BeginsAs (fresh id 2) opened.pooled.worker) }
{
    let concurrency = Concurrency::new(&rt, Some(1), 1, SeatDeal::InTurn);
    let node = idle_node(alloc, id, 2).ok()?;
    match open_server(rt, alloc, node, 2, concurrency, Allowance::new(None, 2)) {
        Ok(opened) => Some(opened),
        Err(_) => None,
    }
}

// A server of two, whose turns are scheduled, with its inlets, and where its messages come.
fn scheduled_server<R: Wait + Threads + Copy + Drop>(
    rt: R,
    alloc: Global,
    id: u8,
    loop_handles: &Arc<LoopHandles, Global>,
) -> Option<(Scheduled<R>, Vec<Inlet>, Receiver<Kept>)> {
    let opened = opened_server(rt, alloc, id)?;
    let Opened {
        pooled,
        failed,
        gauge,
    } = opened;
    let Pooled {
        worker,
        pools,
        inlets,
    } = pooled;
    let (sender, barrier) = unbounded(alloc).ok()?;
    let links = Barrier {
        rt,
        kept: sender,
        put: Vec::new(alloc),
        reached: ServerSet::new(),
    };
    let mut scheduler = Scheduler::new(alloc, Arc::try_clone(loop_handles).ok()?, true);
    let ending = Ending::new(alloc).ok()?;
    scheduler.add(id, worker, links, ending, gauge).ok()?;
    let scheduled = Scheduled {
        scheduler,
        pools,
        failed,
    };
    Some((scheduled, inlets, barrier))
}

// Serves two clients, who connect at a port of the system's choice.
fn serve<
    R: Wait
        + Threads
        + Clock
        + Net<Listener = TcpListener, Stream = TcpStream>
        + Copy
        + Drop
        + Send
        + 'static,
>(
    rt: R,
    alloc: Global,
    head: &Arc<Scheduler<R, Barrier<R>>, Global>,
    loop_handles: &Arc<LoopHandles, Global>,
    polls: Vec<Poll>,
    pools: Vec<SeatPool>,
    failed: Mark,
) -> Option<(u16, FrontEnd)> {
    let (port, listener) = listen(&rt)?;
    let served_servers = only_served_server(alloc, listener, pools, failed)?;
    let settings = FrontEndSettings {
        connections: 2,
        serves: 2,
        dense: 1,
    };
    let front_end = open_front_end(
        rt,
        alloc,
        settings,
        head,
        loop_handles,
        polls,
        served_servers,
        None::<NoGuests>,
    )
    .ok()?;
    Some((port, front_end))
}

// The only server that a front end serves.
fn only_served_server(
    alloc: Global,
    listener: TcpListener,
    pools: Vec<SeatPool>,
    mark: Mark,
) -> Option<Vec<FrontEndServer>> {
    let mut served_servers = Vec::new(alloc);
    let served_server = FrontEndServer {
        listener,
        pools,
        mark,
        output_permit: OutputPermit::without_lease(),
    };
    served_servers.push(served_server).ok()?;
    Some(served_servers)
}
