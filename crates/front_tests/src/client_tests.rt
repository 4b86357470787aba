//! A client of a server over a socket in memory, whose input ends or fails anywhere, and whose output fails anywhere.
ghost use Rattle.std.specs.Prelude.{IfSome};
ghost use Rattle.faces.specs.Histories.{IsLater};

use super::servers::pooled;
use in_process_links::InProcessLinks;
use io_threads::{Client, Pooled, Ready, ReplyOutcome};
use leases::{AnyEnd, Lease, Order, Reading, SharedLease, Term};
use rail::Worker;
use seats::{Pause, SeatPool};
use server_guards::{Mark, OutputPermit};
use std::alloc::Global;
use std::io;
use std::io::{Error, ErrorKind, Read, Write};
use std::sync::atomic::{AtomicUsize, Ordering};
use std::sync::{Arc, Wait};
use std::time::Clock;

const REQUESTS: &[u8] = b"set a 5 0 3\r\nxyz\r\ngets a\r\nbad\r\nget a b\r\nquit\r\n";

const REPLIES: &[u8] =
    b"STORED\r\nVALUE a 5 3 1\r\nxyz\r\nEND\r\nERROR\r\nVALUE a 5 3\r\nxyz\r\nEND\r\n";

// What a socket has room for that doesn't fail, and how many bytes it gives or takes at once.
const MANY: usize = 4096;

const FEW: usize = 7;

// What others see of a socket: how many bytes it took, whether they are others than was wanted, and how many of its
// reads and writes failed.
#[derive(Drop)]
struct Seen {
    taken: AtomicUsize,
    others: AtomicUsize,
    failed: AtomicUsize,
}

impl Seen {
    fn new() -> Seen {
        Seen {
            taken: AtomicUsize::new(0),
            others: AtomicUsize::new(0),
            failed: AtomicUsize::new(0),
        }
    }
}

// A socket that gives and takes n bytes in all, a few at a time, and then fails.
#[derive(Drop)]
struct Socket<'a> {
    bytes: &'a [u8],
    reads: usize,
    wanted: &'a [u8],
    writes: usize,
    seen: &'a Seen,
}

impl Read for Socket<'_> {
    fn read(&mut self, buf: &mut [u8]) -> io::Result<usize> {
        if self.reads == 0 {
            self.seen.failed.fetch_add(1, Ordering::SeqCst);
            return Err(Error::from(ErrorKind::Other));
        }
        let n = self.bytes.len().min(buf.len()).min(self.reads).min(FEW);
        buf[..n].copy_from_slice(&self.bytes[..n]);
        self.bytes = &self.bytes[n..];
        self.reads -= n;
        Ok(n)
    }
}

impl Write for Socket<'_> {
    fn write(&mut self, buf: &[u8]) -> io::Result<usize> {
        if self.writes == 0 {
            self.seen.failed.fetch_add(1, Ordering::SeqCst);
            return Err(Error::from(ErrorKind::Other));
        }
        let n = buf.len().min(self.writes).min(FEW);
        if !self.wanted.starts_with(&buf[..n]) {
            self.seen.others.store(1, Ordering::SeqCst);
        }
        self.wanted = self.wanted.get(n..).unwrap_or_default();
        self.writes -= n;
        self.seen.taken.fetch_add(n, Ordering::SeqCst);
        Ok(n)
    }

    fn flush(&mut self) -> io::Result<()> {
        Ok(())
    }
}

// The only server of a chain, with one seat, and a client of it, in the hands of one thread.
struct Alone<'a, R: Wait + Drop> {
    rt: R,
    alloc: Global,
    worker: Worker<R>,
    pool: SeatPool,
    client: Client<Socket<'a>>,
    output_permit: OutputPermit,
}

// The client's socket is ready for all, and its input will end.
#[tactic(auto, using(crate::proofs::Later::later_same))]
fn open_alone<R: Wait + Copy + Drop>(
    rt: R,
    alloc: Global,
    socket: Socket<'_>,
    output_permit: OutputPermit,
) -> Option<Alone<'_, R>>
    ensures known { IfSome result (λ alone. IsLater alone.client.client_connection.seen alone.pool.seen) }
{
    let mark = Mark::new(alloc).ok()?;
    let Pooled {
        worker,
        mut pools,
        inlets,
    } = pooled(rt, alloc, 1, 1, None, &mark)?;
    drop(inlets);
    let Some(pool) = pools.pop() else {
        drop(worker);
        return None;
    };
    let mut client = Client::new(alloc, socket, &pool);
    client.note_ready(Ready {
        reading: true,
        writing: true,
        ended: true,
        gone: false,
    });
    Some(Alone {
        rt,
        alloc,
        worker,
        pool,
        client,
        output_permit,
    })
}

// A client beside its server.
trait Beside {
    // Its client has seen nothing that its seats haven't.
    ghost known: { Self → Type 0 };

    // Has the client go on.
    fn go(&mut self) -> Pause
        requires known { known self.old }
        ensures known { known self.new };

    // Whether the worker finds an input, and the client has its reply after that turn.
    fn hears(&mut self) -> bool
        requires known { known self.old }
        ensures known { known self.new };
}

impl<R: Wait + Clock + Copy + Drop> Beside for Alone<'_, R> {
    ghost known = { λ alone. IsLater alone.client.client_connection.seen alone.pool.seen };

    fn go(&mut self) -> Pause {
        let mut piece = [0u8; 64];
        let progress = self.client.serve(
            &self.rt,
            &mut self.pool,
            piece.as_mut_slice(),
            &self.output_permit,
        );
        progress.pause
    }

    fn hears(&mut self) -> bool {
        let mut links = InProcessLinks::new(self.rt, 0, Vec::new(self.alloc));
        matches!(self.worker.turn_if_any(&mut links), Ok(Some(_)))
            && self.client.receive_replies(&self.rt, &mut self.pool) == ReplyOutcome::Reply
    }
}

impl<R: Wait + Drop> Alone<'_, R> {
    fn end(self)
        requires known { IsLater self.client.client_connection.seen self.pool.seen }
    {
        let Alone {
            rt: _rt,
            alloc: _,
            worker,
            mut pool,
            client,
            output_permit,
        } = self;
        client.leave(&mut pool);
        drop(output_permit);
        drop(pool);
        drop(worker);
    }
}

// How often a client goes on until it is over.
const STEPS: usize = 1000;

// Has a client go on until it is over, and takes a turn for each call that it sends. False if it isn't over after many
// steps.
fn is_over<B: Beside>(beside: &mut B) -> bool
    requires known { B.known beside.old }
    ensures known { B.known beside.new }
{
    for _ in 0..STEPS {
        match beside.go() {
            Pause::Over => return true,
            Pause::Turn => {}
            Pause::Reply => {
                if !beside.hears() {
                    return false;
                }
            }
            Pause::Input | Pause::Output | Pause::Seat | Pause::Lease => return false,
        }
    }
    false
}

// What came of a client: whether it was over at last, how many bytes of the replies it was sent, whether it was sent
// others, and how many reads and writes failed.
#[derive(Clone, Copy, Debug, PartialEq, Eq)]
struct Came {
    is_over: bool,
    sent: usize,
    others: usize,
    failed: usize,
}

// A client that sends these bytes, whose reads fail after `reads` bytes, and whose writes fail after `writes`.
fn served<R: Wait + Clock + Copy + Drop>(
    rt: R,
    alloc: Global,
    bytes: &[u8],
    reads: usize,
    writes: usize,
) -> Option<Came> {
    let seen = Seen::new();
    let socket = Socket {
        bytes,
        reads,
        wanted: REPLIES,
        writes,
        seen: &seen,
    };
    let mut alone = open_alone(rt, alloc, socket, OutputPermit::without_lease())?;
    let is_over = is_over(&mut alone);
    alone.end();
    Some(Came {
        is_over,
        sent: seen.taken.load(Ordering::SeqCst),
        others: seen.others.load(Ordering::SeqCst),
        failed: seen.failed.load(Ordering::SeqCst),
    })
}

// A client that is over, was sent the first n bytes of the replies, and has had this many failures.
fn over(sent: usize, failed: usize) -> Came {
    Came {
        is_over: true,
        sent,
        others: 0,
        failed,
    }
}

#[test]
fn a_write_that_fails_after_three_bytes(rt: HostRuntime) {
    let came = served(rt, rt.alloc(), REQUESTS, MANY, 3);
    assert_eq!(rt; came, Some(over(3, 1)));
}

#[test]
fn a_first_read_that_fails(rt: HostRuntime) {
    let came = served(rt, rt.alloc(), REQUESTS, 0, MANY);
    assert_eq!(rt; came, Some(over(0, 1)));
}

// Whether a client whose input ends after n bytes is sent a beginning of the replies, and one whose read fails
// there the same.
fn is_same_if_read_fails<R: Wait + Clock + Copy + Drop>(rt: R, alloc: Global, n: usize) -> bool {
    let front_end = REQUESTS.get(..n).unwrap_or_default();
    let ended = served(rt, alloc, front_end, MANY, MANY);
    let failed = served(rt, alloc, REQUESTS, n, MANY);
    match ended {
        Some(ended) => ended == over(ended.sent, 0) && failed == Some(over(ended.sent, 1)),
        None => false,
    }
}

// The first n at which it isn't so, if there is one.
fn first_difference<R: Wait + Clock + Copy + Drop>(rt: R, alloc: Global) -> Option<usize> {
    for n in 0..REQUESTS.len() {
        if !is_same_if_read_fails(rt, alloc, n) {
            return Some(n);
        }
    }
    None
}

// After any number of bytes before the last: what is sent is the same if the input ends and if a read fails.
#[test]
fn the_input_ends_or_a_read_fails_anywhere(rt: HostRuntime) {
    assert_eq!(rt; first_difference(rt, rt.alloc()), None);
}

// The first n after which a write fails, or none does since these are all, and the client isn't sent these n bytes
// alone, if there is one.
fn first_wrong_write<R: Wait + Clock + Copy + Drop>(rt: R, alloc: Global) -> Option<usize> {
    for n in 0..REPLIES.len() {
        if served(rt, alloc, REQUESTS, MANY, n) != Some(over(n, 1)) {
            return Some(n);
        }
    }
    let whole = served(rt, alloc, REQUESTS, MANY, REPLIES.len());
    (whole != Some(over(REPLIES.len(), 0))).then_some(REPLIES.len())
}

#[test]
fn a_write_fails_anywhere(rt: HostRuntime) {
    assert_eq!(rt; first_wrong_write(rt, rt.alloc()), None);
}

// What a client asks whose server's lease doesn't hold at first, and the reply.
const BAD: &[u8] = b"bad\r\n";

const ERROR: &[u8] = b"ERROR\r\n";

// The longest term, in seconds.
const HOUR: u64 = 3600;

// A lease that nobody has prolonged yet.
fn lease_of_an_hour(alloc: Global) -> Option<Arc<SharedLease<AnyEnd>, Global>> {
    Arc::new(alloc, SharedLease::new(Term::of_seconds(HOUR))).ok()
}

// Prolongs a lease from now on. Whether the clock could be read.
fn prolongs<R: Clock>(rt: &R, shared: &SharedLease<AnyEnd>) -> bool {
    let Some(reading) = Reading::after(rt, 0u16) else {
        return false;
    };
    let stamp = reading.shown();
    let mut lease = Lease::new(Term::of_seconds(HOUR));
    lease.hear(Order::Beat(0, Some(stamp)), reading);
    shared.renew(&lease);
    true
}

// Whether a client waits, and is sent nothing, as long as its server's lease doesn't hold, and is over once it does.
fn waits_for_it<R: Clock, B: Beside>(
    rt: &R,
    shared: &SharedLease<AnyEnd>,
    seen: &Seen,
    beside: &mut B,
) -> bool
    requires known { B.known beside.old }
    ensures known { B.known beside.new }
{
    let is_held = beside.go() == Pause::Lease;
    let is_held_again = beside.go() == Pause::Lease;
    let is_quiet = seen.taken.load(Ordering::SeqCst) == 0;
    let is_prolonged = prolongs(rt, shared);
    let is_over = beside.go() == Pause::Over;
    is_held && is_held_again && is_quiet && is_prolonged && is_over
}

// Whether a client waits for its server's lease, how many bytes it is sent at last, and whether these are others than
// the reply.
fn sent_by_lease<R: Wait + Clock + Copy + Drop>(
    rt: R,
    alloc: Global,
) -> Option<(bool, usize, usize)> {
    let shared = lease_of_an_hour(alloc)?;
    let output_permit = OutputPermit::by_lease(Arc::try_clone(&shared).ok()?);
    let seen = Seen::new();
    let socket = Socket {
        bytes: BAD,
        reads: MANY,
        wanted: ERROR,
        writes: MANY,
        seen: &seen,
    };
    let mut alone = open_alone(rt, alloc, socket, output_permit)?;
    let waits = waits_for_it(&rt, &shared, &seen, &mut alone);
    alone.end();
    Some((
        waits,
        seen.taken.load(Ordering::SeqCst),
        seen.others.load(Ordering::SeqCst),
    ))
}

#[test]
fn a_client_waits_for_the_lease(rt: HostRuntime) {
    assert_eq!(rt; sent_by_lease(rt, rt.alloc()), Some((true, ERROR.len(), 0)));
}
