//! A member's seal: whether it begins updates, which markers have come, and when it is idle.
ghost use Rattle.std.specs.Prelude.{◌≡◌, ◌<◌, true, Some, slice_set};
ghost use Rattle.leases.specs.Sets as sets;
ghost use Rattle.seals.specs.Seals.{
  SealState,
  serving,
  changed,
  sealed,
  followed,
  passed_by,
  marked_by,
  all_below,
  has_passed,
  mark_at,
  standing_of,
  due,
  after_due,
};
ghost use Rattle.seals.specs.Seals as seals;

use crate::holds::Hold;
use crate::markers::{Marker, Numbers, Table};
use std::marker::Model;
use successions::{MOST, Phase, Standing};

/// What a member knows of its seal. It reads nothing and sends nothing: its caller hands it what its server took, in
/// the order in which that took it, and sends what is due.
#[derive(Debug, Drop)]
pub struct Seal {
    generation: u64,
    id: u8,
    members: u16,
    threads: u8,
    epoch: u64,
    hold: Hold,
    marks: [Option<Numbers>; MOST as usize],
    passed: [bool; MOST as usize],
    sent: Option<Numbers>,
}

impl Model for Seal {
    ghost use Rattle.seals.specs.Seals.{SealState};

    ghost Value = { SealState };

    ghost view = { λ s. record {
      generation = s.generation;
      id = s.id;
      members = s.members;
      threads = s.threads;
      epoch = s.epoch;
      hold = s.hold;
      marks = s.marks;
      passed = s.passed;
      sent = s.sent;
    } };
}

impl Seal {
    /// Member `id` of this generation, whose members are these: member i is the bit of value 2^i. So many threads take
    /// its clients' updates; with more than 16 it is never idle. It begins updates.
    pub fn new(generation: u64, id: u8, members: u16, threads: u8) -> Seal
        ensures { result ≡ serving generation id members threads }
    {
        Seal {
            generation,
            id,
            members,
            threads,
            epoch: 0,
            hold: Hold::Open,
            marks: [None; MOST as usize],
            passed: [false; MOST as usize],
            sent: None,
        }
    }

    /// Its member is at this phase (`successions::Report::phase`). To be called whenever it may have changed.
    ///
    /// - `Serving`: it begins updates.
    /// - `Started`: it doesn't.
    /// - `Sealed`, `Switched`: it doesn't. The seal that it is in goes on; one of a later epoch is a new one, in which
    ///   nothing has come; one of an earlier epoch, or one that it has left, holds it, and no marker counts.
    pub fn follow(&mut self, phase: Phase)
        ensures { self.new ≡ followed self.old phase }
    {
        match phase {
            Phase::Started => self.hold = Hold::Held,
            Phase::Serving => self.hold = Hold::Open,
            Phase::Sealed(acceptance) | Phase::Switched(acceptance) => self.seal(acceptance.epoch),
        }
    }

    /// Whether it begins updates. If not, updates of clients wait unbegun.
    pub fn may_begin(&self) -> bool
        ensures { result ≡ seals.begins self.now.hold }
    {
        match self.hold {
            Hold::Open => true,
            Hold::Held | Hold::Fenced => false,
        }
    }

    /// The epoch of the seal that it is in, or was in last; 0 before the first. A thread of its own that sees that it
    /// begins no update sends a marker with this epoch, behind all that it sent before.
    pub fn epoch(&self) -> u64
        ensures { result ≡ self.now.epoch }
    {
        self.epoch
    }

    /// Its server has taken the marker of a thread of its own. It counts if it is of the seal that it is in.
    pub fn hear_thread(&mut self, thread: u8, epoch: u64)
        ensures { self.new ≡ passed_by self.old thread epoch }
    {
        if self.is_in(epoch) {
            pass(self.passed.as_mut_slice(), thread);
        }
    }

    /// Its server has taken a marker that came on the link from this peer. It counts if it is of its generation and of
    /// the seal that it is in, in place of the one before.
    pub fn hear_peer(&mut self, from: u8, marker: Marker)
        ensures { self.new ≡ marked_by self.old from marker }
    {
        if marker.generation == self.generation && self.is_in(marker.epoch) {
            mark(self.marks.as_mut_slice(), from, marker.numbers);
        }
    }

    /// The marker that is due to each peer (`is_peer`), while its table is so: none as long as it isn't sealed, or has
    /// something unfinished, or if it gave one with these numbers before in this seal. Its caller puts it on the links
    /// before its server takes anything more.
    pub fn mark(&mut self, table: Table) -> Option<Marker>
        ensures marker { result ≡ due self.old table }
        ensures state { self.new ≡ after_due self.old table }
    {
        let due = self.due(table);
        if self.is_at_rest(table) {
            self.sent = Some(table.numbers);
        }
        due
    }

    /// Whether this member is a peer that isn't gone by this view: it is sent markers, and waited for.
    pub fn is_peer(&self, view: u16, i: u8) -> bool
        ensures { result ≡ seals.is_peer self.now view i }
    {
        i < MOST && has(self.members, i) && !has(view, i) && i != self.id
    }

    /// What it reports while its table is so. It is idle if it is sealed, each of its threads has passed, its table
    /// isn't busy, and the newest marker of each peer that isn't gone by its view names the numbers of its own table.
    pub fn standing(&self, table: Table) -> Standing
        ensures { result ≡ standing_of self.now table }
    {
        Standing {
            view: table.numbers.view,
            last: table.numbers.last,
            committed: table.numbers.committed,
            idle: self.is_at_rest(table) && self.are_level(table.numbers),
        }
    }

    // Whether it is in the seal of this epoch.
    fn is_in(&self, epoch: u64) -> bool
        ensures { result ≡ seals.is_in self.now epoch }
    {
        is_fenced(self.hold) && self.epoch == epoch
    }

    // It is told of a seal of this epoch.
    fn seal(&mut self, epoch: u64)
        ensures { self.new ≡ sealed self.old epoch }
    {
        if !self.is_in(epoch) {
            self.change(epoch);
        }
    }

    // It is told of a seal that it isn't in.
    fn change(&mut self, epoch: u64)
        ensures { self.new ≡ changed self.old epoch }
    {
        if self.epoch < epoch {
            self.epoch = epoch;
            self.hold = Hold::Fenced;
            self.marks = [None; MOST as usize];
            self.passed = [false; MOST as usize];
            self.sent = None;
        } else {
            self.hold = Hold::Held;
        }
    }

    // The marker that is due.
    fn due(&self, table: Table) -> Option<Marker>
        ensures { result ≡ due self.now table }
    {
        if names(self.sent, table.numbers) {
            None
        } else {
            self.marker(table)
        }
    }

    // The marker that it may send.
    fn marker(&self, table: Table) -> Option<Marker>
        ensures { result ≡ seals.marker_of self.now table }
    {
        if self.is_at_rest(table) {
            Some(Marker {
                generation: self.generation,
                epoch: self.epoch,
                numbers: table.numbers,
            })
        } else {
            None
        }
    }

    // Whether it has nothing unfinished.
    fn is_at_rest(&self, table: Table) -> bool
        ensures { result ≡ seals.is_at_rest self.now table }
    {
        is_fenced(self.hold) && !table.busy && have_passed(self.passed.as_slice(), self.threads)
    }

    // Whether it needn't wait for any member.
    fn are_level(&self, numbers: Numbers) -> bool
        ensures { result ≡ all_below (seals.is_level self.now numbers) 16 }
    {
        let mut level = true;
        for i in 0..MOST {
            level = level && self.is_level(numbers, i);
        }
        level
    }

    // Whether it needn't wait for this member.
    fn is_level(&self, numbers: Numbers, i: u8) -> bool
        ensures { result ≡ seals.is_level self.now numbers i }
    {
        if self.is_peer(numbers.view, i) {
            names(mark_at(self.marks.as_slice(), i), numbers)
        } else {
            true
        }
    }
}

// Whether markers count.
fn is_fenced(hold: Hold) -> bool
    ensures { result ≡ seals.is_fenced hold }
{
    match hold {
        Hold::Fenced => true,
        Hold::Open | Hold::Held => false,
    }
}

// Whether a set has this member.
fn has(set: u16, i: u8) -> bool
    requires member { i < 16 }
    ensures { result ≡ sets.has set i }
{
    (set >> i) & 1 == 1
}

// Whether a marker is there, and names these numbers.
fn names(mark: Option<Numbers>, numbers: Numbers) -> bool
    ensures { result ≡ seals.names mark numbers }
{
    match mark {
        Some(mark) => is_same(mark, numbers),
        None => false,
    }
}

// Whether these are the same numbers.
fn is_same(one: Numbers, other: Numbers) -> bool
    ensures { result ≡ seals.is_same one other }
{
    one.view == other.view && one.last == other.last && one.committed == other.committed
}

// Whether the marker of each of so many threads has come.
fn have_passed(passed: &[bool], threads: u8) -> bool
    ensures { result ≡ all_below (has_passed passed.now) threads }
{
    let mut all = true;
    for thread in 0..threads {
        all = all && has_passed(passed, thread);
    }
    all
}

// Whether the marker of this thread has come.
fn has_passed(passed: &[bool], thread: u8) -> bool
    ensures { result ≡ has_passed passed.now thread }
{
    let thread = usize::from(thread);
    if thread < passed.len() {
        passed[thread]
    } else {
        false
    }
}

// The marker of this thread has come.
fn pass(passed: &mut [bool], thread: u8)
    ensures { passed.new ≡ slice_set passed.old thread true }
{
    let thread = usize::from(thread);
    if thread < passed.len() {
        passed[thread] = true;
    }
}

// The newest marker of this peer.
fn mark_at(marks: &[Option<Numbers>], i: u8) -> Option<Numbers>
    ensures { result ≡ mark_at marks.now i }
{
    let i = usize::from(i);
    if i < marks.len() { marks[i] } else { None }
}

// This is the newest marker of this peer.
fn mark(marks: &mut [Option<Numbers>], i: u8, numbers: Numbers)
    ensures { marks.new ≡ slice_set marks.old i (Some numbers) }
{
    let i = usize::from(i);
    if i < marks.len() {
        marks[i] = Some(numbers);
    }
}
