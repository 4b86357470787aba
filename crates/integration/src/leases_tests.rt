//! A lease of two seconds, and a watch over it.

use crate::making::{Fault, all_hold, all_true};
use leases::{
    Answer, AnyEnd, Claim, Due, Lease, MasterMachine, Order, Paces, Reading, Report, Roll, SECOND,
    ServerRecord, SharedLease, Term, Watch, WatchDue, nanoseconds_of, next_epoch,
};
use std::alloc::Global;
use std::io;
use std::test::Fail;
use std::time::{Clock, Duration};

// A clock that shows this many nanoseconds.
#[derive(Drop)]
struct Shows(u64);

impl Clock for Shows {
    fn monotonic(&self) -> io::Result<Duration> {
        Ok(Duration::from_nanos(self.0))
    }

    fn since_1970(&self) -> io::Result<Duration> {
        Ok(Duration::from_nanos(self.0))
    }
}

// A reading of that clock, once this is known.
fn read<T: Copy>(known: T, now: u64) -> Option<Reading<T>> {
    Reading::after(&Shows(now), known)
}

// What a server answers that knows these to be gone, when its clock shows this.
fn answers(lease: &mut Lease, order: Order, gone: u16, now: u64) -> Option<Answer> {
    let reading = read(gone, now)?;
    Some(lease.hear(order, reading))
}

// The report that it answers.
fn reports(lease: &mut Lease, order: Order, gone: u16, now: u64) -> Option<Report> {
    match answers(lease, order, gone, now)? {
        Answer::Tells(report) => Some(report),
        Answer::Notes(_) => None,
    }
}

fn two_seconds() -> Option<Term> {
    Term::of_seconds(2)
}

fn wait_of(term: Option<Term>) -> Option<u64> {
    match term {
        Some(term) => Some(term.wait()),
        None => None,
    }
}

fn is_kept_up(term: Option<Term>) -> bool {
    match term {
        Some(term) => Paces::usual().keep_up(term),
        None => true,
    }
}

// A lease to which a beat of epoch 7 came.
fn beaten(stamp: u64, now: u64) -> Lease {
    let mut lease = Lease::new(two_seconds());
    lease.enter(7);
    answers(&mut lease, Order::Beat(7, Some(stamp)), 0, now);
    lease
}

// What is due first for a server that was heard at 1 s, with a beat each 300 ms.
fn first_due(now: u64) -> WatchDue {
    let mut watch = Watch::new(two_seconds(), Paces::usual(), 5, SECOND);
    watch.next(true, now)
}

// The watch over it, if beats were sent at 2 s and at 3 s.
fn unanswered() -> Watch {
    let mut watch = Watch::new(two_seconds(), Paces::usual(), 5, SECOND);
    watch.next(true, 2 * SECOND);
    watch.next(true, 3 * SECOND);
    watch
}

// What is due for it then.
fn due_then(now: u64) -> WatchDue {
    let mut watch = unanswered();
    watch.next(true, now)
}

// What is due for it at a time, once it was told at 4 s.
fn due_later(now: u64) -> WatchDue {
    let mut watch = unanswered();
    watch.next(true, 4 * SECOND);
    watch.answered(6, 4 * SECOND);
    watch.next(true, now)
}

fn due_after_refusal() -> WatchDue {
    let mut watch = Watch::new(None, Paces::usual(), 5, SECOND);
    watch.refused();
    watch.next(true, SECOND)
}

#[test]
fn terms_are_from_one_second_to_an_hour() -> Result<(), Fail> {
    all_true(&[
        Term::of_seconds(0).is_none(),
        Term::of_seconds(3_600).is_some(),
        Term::of_seconds(3_601).is_none(),
        Term::of_nanoseconds(2 * SECOND) == two_seconds(),
        Term::of_nanoseconds(SECOND - 1).is_none(),
        // Eleven tenths of 2.01 s, and one.
        wait_of(two_seconds()) == Some(2_211_000_001),
    ])
}

#[test]
fn paces_are_in_order() -> Result<(), Fail> {
    all_true(&[
        Paces::of_milliseconds(300, 300).is_none(),
        Paces::of_milliseconds(300, 3_000) == Some(Paces::usual()),
        is_kept_up(two_seconds()),
    ])
}

#[test]
fn a_lease_runs_from_the_stamp() -> Result<(), Fail> {
    let lease = beaten(SECOND, 9 * SECOND);
    all_true(&[
        lease.is_held(2_999_999_999),
        !lease.is_held(3 * SECOND),
        Lease::new(None).is_held(SECOND),
    ])
}

#[test]
fn a_server_is_in_its_latest_epoch() -> Result<(), Fail> {
    let mut lease = beaten(SECOND, SECOND);
    let (enters, is_of) = (lease.enter(6), lease.is_of(7));
    answers(&mut lease, Order::Beat(6, Some(2 * SECOND)), 4, 2 * SECOND);
    let is_held = lease.is_held(3 * SECOND);
    answers(&mut lease, Order::Beat(7, None), 1, 3 * SECOND);
    all_true(&[!enters, is_of, !is_held, lease.known() == 4])
}

#[test]
fn a_watch_beats_and_then_tells() -> Result<(), Fail> {
    all_true(&[
        first_due(1_200_000_000) == WatchDue::Wait(100_000_000),
        first_due(1_300_000_000) == WatchDue::Beat(Some(5)),
        due_then(4_000_000_000) == WatchDue::TellServer,
        // A master that is late itself sends a beat first.
        first_due(4_000_000_000) == WatchDue::Beat(Some(5)),
        due_then(5_000_000_000) == WatchDue::Beat(Some(5)),
        due_later(3_211_000_000) == WatchDue::Wait(1),
        due_later(3_211_000_001) == WatchDue::TellSilent,
        due_after_refusal() == WatchDue::TellGone,
    ])
}

// The epoch that a server tells after an order, and whether its lease holds then. It is in epoch 7, and was prolonged
// at 1 s.
fn told_after(order: Order, now: u64) -> Option<(u64, bool)> {
    let mut lease = beaten(SECOND, SECOND);
    let report = reports(&mut lease, order, 0, now)?;
    Some((report.epoch, now < report.end))
}

// The server of which a notice is taken in epoch 7, or what the server reports.
fn heard_after(order: Order) -> Option<Result<u8, Report>> {
    let mut lease = beaten(SECOND, SECOND);
    match answers(&mut lease, order, 0, SECOND)? {
        Answer::Tells(report) => Some(Err(report)),
        Answer::Notes(id) => Some(Ok(id)),
    }
}

// The server of which a notice is taken in epoch 7.
fn noted_after(order: Order) -> Option<u8> {
    match heard_after(order) {
        Some(Ok(id)) => Some(id),
        Some(Err(_)) | None => None,
    }
}

#[test]
fn a_server_hears_orders() -> Result<(), Fail> {
    all_true(&[
        told_after(Order::Reign(6), SECOND) == Some((7, true)),
        told_after(Order::Reign(8), SECOND) == Some((8, true)),
        told_after(Order::Beat(7, None), 3 * SECOND) == Some((7, false)),
        told_after(Order::Beat(7, Some(2 * SECOND)), 3 * SECOND) == Some((7, true)),
        told_after(Order::Beat(6, Some(2 * SECOND)), 3 * SECOND) == Some((7, false)),
        noted_after(Order::Silent(7, 2)) == Some(2),
        noted_after(Order::Silent(6, 2)).is_none(),
        noted_after(Order::Gone(2)) == Some(2),
    ])
}

// The other threads of the server of this lease.
fn shared(term: Option<Term>, lease: &Lease) -> SharedLease<AnyEnd> {
    let shared = SharedLease::new(term);
    shared.renew(lease);
    shared
}

#[test]
fn other_threads_ask() -> Result<(), Fail> {
    let timed = shared(two_seconds(), &beaten(SECOND, SECOND));
    let untimed = shared(None, &Lease::new(None));
    all_true(&[
        timed.is_timed(),
        timed.is_held(2_999_999_999),
        !timed.is_held(3 * SECOND),
        !untimed.is_timed(),
        untimed.is_held(u64::MAX),
        nanoseconds_of(Duration::from_millis(1_500)) == 1_500_000_000,
        nanoseconds_of(Duration::MAX) == u64::MAX,
    ])
}

// Whether an epoch is whole for server 1 of three, if server 0 entered it and knew these to be gone, and it knew those.
fn whole_for_one(gone: u16, known: u16) -> bool {
    let mut roll = Roll::new(0b010, 0b101);
    roll.enters(0b001, gone);
    roll.knows(known);
    roll.is_whole()
}

#[test]
fn an_epoch_is_whole_or_not() -> Result<(), Fail> {
    all_true(&[
        !whole_for_one(0, 0),
        whole_for_one(0, 0b100),
        whole_for_one(0b100, 0b100),
        !whole_for_one(0b010, 0b100),
    ])
}

// A master of name 3 that started at 1 s, and then heard of epoch 9 of another, and of a lease that ends at 5 s.
fn followed() -> Claim {
    let mut claim = Claim::new(3, Paces::usual(), SECOND);
    let mut lease = Lease::new(two_seconds());
    lease.enter(9);
    if let Some(report) = reports(&mut lease, Order::Beat(9, Some(3 * SECOND)), 0, 3 * SECOND) {
        claim.informed(&report, 0, 2 * SECOND);
    }
    claim
}

// The epoch that it takes at this time, if it takes one.
fn claimed(met: bool, now: u64) -> Option<u64> {
    let mut claim = followed();
    if claim.is_due(met, now) {
        claim.claim(now)
    } else {
        None
    }
}

#[test]
fn a_master_takes_an_epoch() -> Result<(), Fail> {
    all_true(&[
        claimed(true, 2 * SECOND) == Some(0x1_0000_0003),
        claimed(false, 4 * SECOND).is_none(),
        claimed(false, 5 * SECOND) == Some(0x1_0000_0003),
        !followed().is_reigning(),
        followed().epoch() == 0,
    ])
}

#[test]
fn epochs_end_in_the_masters_name() -> Result<(), Fail> {
    all_true(&[
        next_epoch(0, 3) == Some(3),
        next_epoch(3, 3) == Some(0x1_0000_0003),
        next_epoch(0x1_0000_0003, 2) == Some(0x2_0000_0002),
        next_epoch(0xffff_ffff_ffff_fffe, 3).is_none(),
    ])
}

// What server 1 of three tells in an epoch, at 2 s of its clock, if it knows these to be gone.
fn report_in(epoch: u64, gone: u16) -> Report {
    Report {
        epoch,
        stamp: 2 * SECOND,
        end: 0,
        term: two_seconds(),
        gone,
        known: 0,
    }
}

// Server 1 of three, which a master of epoch 7 has greeted.
fn greeted() -> ServerRecord {
    let mut server_record = ServerRecord::new(1, 0b101, Paces::usual());
    server_record.begin(7);
    server_record
}

// What is due for it at 6 s, once it was heard in this epoch at 5 s, and the others in epoch 7, which know these to be
// gone.
fn due_for(epoch: u64, gone: u16) -> Due {
    let mut server_record = greeted();
    server_record.hear(1, &report_in(epoch, 0), 5 * SECOND);
    server_record.hear(0, &report_in(7, 0), 5 * SECOND);
    server_record.hear(2, &report_in(7, gone), 5 * SECOND);
    server_record.next(6 * SECOND)
}

// What is due for it at this time, once it was heard at 1 s, and told at 4 s that it is gone.
fn due_for_silent(now: u64) -> Due {
    let mut server_record = greeted();
    server_record.hear(1, &report_in(7, 0), SECOND);
    server_record.next(2 * SECOND);
    server_record.next(3 * SECOND);
    server_record.next(4 * SECOND);
    server_record.next(now)
}

#[test]
fn a_master_watches() -> Result<(), Fail> {
    all_true(&[
        greeted().next(SECOND) == Due::Server(Order::Reign(7)),
        due_for(7, 0) == Due::Server(Order::Beat(7, Some(2 * SECOND))),
        due_for(7, 0b010) == Due::Others(Order::Gone(1)),
        due_for(6, 0) == Due::Server(Order::Reign(7)),
    ])
}

#[test]
fn a_master_calls_a_silent_server_gone() -> Result<(), Fail> {
    all_true(&[
        due_for_silent(3_211_000_001) == Due::Others(Order::Silent(7, 1)),
        due_for_silent(3_211_000_000) == Due::Wait(1),
    ])
}

// What happens to a master of name 3 in a chain of two servers, and what it answers.
#[derive(Clone, Copy)]
enum Step {
    // At 1 s it takes an epoch: this one.
    Claims(u64),
    // This server told of an epoch when the master's clock showed this. Whether the master is followed by another.
    Told(u8, u64, u64, bool),
    // Somebody has seen that server 1 does nothing more.
    Loses,
    // This is due for server 1 at 1 s.
    IsDue(Due),
    // It asks each tenth of a second what is due, from a time until another. Whether it tells one of the servers that
    // it is gone.
    Tells(u64, u64, bool),
}

// A tenth of a second.
const TENTH: u64 = 100_000_000;

// What is due for a server when its clock shows this.
fn next(master_machine: &mut MasterMachine, id: u8, now: u64) -> Option<Due> {
    let reading = read((), now)?;
    Some(master_machine.next(id, reading))
}

// Whether it is followed by another once a server told of this epoch, whose lease has this term.
fn told(
    master_machine: &mut MasterMachine,
    id: u8,
    epoch: u64,
    term: Option<Term>,
    now: u64,
) -> Option<bool> {
    let reading = read(of_term(term, report_in(epoch, 0)), now)?;
    if id < 2 {
        Some(master_machine.told(id, reading))
    } else {
        None
    }
}

// The same report, of a lease of this term.
fn of_term(term: Option<Term>, report: Report) -> Report {
    Report { term, ..report }
}

// The epoch that it takes at 1 s.
fn claims(master_machine: &mut MasterMachine) -> Option<u64> {
    let reading = read((), SECOND)?;
    master_machine.claim(reading)
}

fn tells(master_machine: &mut MasterMachine, from: u64, until: u64) -> bool {
    let mut now = from;
    let mut has_told = false;
    for _ in 0..100u8 {
        if now >= until {
            break;
        }
        for id in 0..2u8 {
            if let Some(Due::Server(Order::Silent(_, _))) = next(master_machine, id, now) {
                has_told = true;
            }
        }
        now = now.saturating_add(TENTH);
    }
    has_told
}

fn goes(master_machine: &mut MasterMachine, step: Step) -> bool {
    match step {
        Step::Claims(epoch) => claims(master_machine) == Some(epoch),
        Step::Told(id, epoch, now, followed) => {
            told(master_machine, id, epoch, two_seconds(), now) == Some(followed)
        }
        Step::Loses => {
            master_machine.lose(1);
            true
        }
        Step::IsDue(due) => next(master_machine, 1, SECOND) == Some(due),
        Step::Tells(from, until, wanted) => tells(master_machine, from, until) == wanted,
    }
}

// The first step that goes otherwise than it says.
fn other_step(master_machine: &mut MasterMachine, steps: &[Step]) -> Option<usize> {
    let mut place = 0_usize;
    for step in steps {
        if !goes(master_machine, *step) {
            return Some(place);
        }
        place = place.wrapping_add(1);
    }
    None
}

// The same of a master that has just started, and that both servers told in no epoch how they are.
fn other_of_new(alloc: Global, steps: &[Step]) -> Result<Option<usize>, Fault> {
    let Some(reading) = read((), SECOND) else {
        return Err(Fault::Refused);
    };
    let mut master_machine = MasterMachine::new(alloc, 3, 2, Paces::usual(), reading)?;
    told(&mut master_machine, 0, 0, two_seconds(), SECOND);
    told(&mut master_machine, 1, 0, two_seconds(), SECOND);
    let other = other_step(&mut master_machine, steps);
    drop(master_machine);
    Ok(other)
}

// It hears nobody from 1 s to 7 s, and then server 0 alone until 8 s. At 8 s it hears both, and then server 0 alone.
static CUT_OFF: [Step; 13] = [
    Step::Claims(3),
    Step::Told(0, 3, SECOND, false),
    Step::Told(1, 3, SECOND, false),
    Step::Tells(SECOND, 7 * SECOND, false),
    Step::Told(0, 3, 7 * SECOND, false),
    Step::Tells(7 * SECOND, 8 * SECOND, false),
    Step::Told(0, 3, 8 * SECOND, false),
    Step::Told(1, 3, 8 * SECOND, false),
    Step::Tells(8 * SECOND, 9 * SECOND, false),
    Step::Told(0, 3, 9 * SECOND, false),
    Step::Tells(9 * SECOND, 10 * SECOND, false),
    Step::Told(0, 3, 10 * SECOND, false),
    Step::Tells(10 * SECOND, 12 * SECOND, true),
];

// It hears nothing of the last server from 1 s to 9 s.
static LAST: [Step; 5] = [
    Step::Claims(3),
    Step::Told(0, 3, SECOND, false),
    Step::Told(1, 3, SECOND, false),
    Step::Loses,
    Step::Tells(SECOND, 9 * SECOND, false),
];

// Server 1 is called silent at 4 s, and answers beats of before then. Server 0, the last one, is silent since 4 s.
static WOKEN: [Step; 16] = [
    Step::Claims(3),
    Step::Told(0, 3, SECOND, false),
    Step::Told(1, 3, SECOND, false),
    Step::Tells(SECOND, 2 * SECOND, false),
    Step::Told(0, 3, 2 * SECOND, false),
    Step::Tells(2 * SECOND, 3 * SECOND, false),
    Step::Told(0, 3, 3 * SECOND, false),
    Step::Tells(3 * SECOND, 4 * SECOND, false),
    Step::Told(0, 3, 4 * SECOND, false),
    Step::Tells(4 * SECOND, 5 * SECOND, true),
    Step::Told(1, 3, 5 * SECOND, false),
    Step::Tells(5 * SECOND, 6 * SECOND, false),
    Step::Told(1, 3, 6 * SECOND, false),
    Step::Tells(6 * SECOND, 7 * SECOND, false),
    Step::Told(1, 3, 7 * SECOND, false),
    Step::Tells(7 * SECOND, 9 * SECOND, false),
];

#[test]
fn a_master_that_was_cut_off_waits(rt: HostRuntime) -> Result<(), Fail> {
    all_hold(other_of_new(rt.alloc(), &CUT_OFF))?;
    all_hold(other_of_new(rt.alloc(), &LAST))?;
    all_hold(other_of_new(rt.alloc(), &WOKEN))
}

static REIGNS: [Step; 2] = [Step::Claims(3), Step::IsDue(Due::Server(Order::Reign(3)))];

// Server 0 told of the master's own epoch.
static GOES_ON: [Step; 3] = [
    Step::Claims(3),
    Step::Told(0, 3, SECOND, false),
    Step::IsDue(Due::Server(Order::Reign(3))),
];

// Server 0 told of a later epoch, in which the master isn't.
static IS_FOLLOWED: [Step; 3] = [
    Step::Claims(3),
    Step::Told(0, 9, SECOND, true),
    Step::IsDue(Due::Server(Order::Reign(0))),
];

static LOSES: [Step; 2] = [Step::Loses, Step::IsDue(Due::Others(Order::Gone(1)))];

#[test]
fn a_master_decides(rt: HostRuntime) -> Result<(), Fail> {
    all_hold(other_of_new(rt.alloc(), &REIGNS))?;
    all_hold(other_of_new(rt.alloc(), &GOES_ON))?;
    all_hold(other_of_new(rt.alloc(), &IS_FOLLOWED))?;
    all_hold(other_of_new(rt.alloc(), &LOSES))
}
