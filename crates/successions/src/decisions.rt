//! The master's side: what it knows of the members of a generation, and what it decides.
ghost use Rattle.std.specs.Prelude.{◌≡◌, ◌≢◌, ◌+◌, ◌<◌, ◌^◌, ◌↔◌, ℕ, true, false, Some, None, IsTrue, IfSome, IfNone};
ghost use Rattle.std.specs.Prelude.{OnOk, OnErr, slice_set, slice_index, length, Contains};
ghost use Rattle.successions.specs.declared.members.Members.{Members};
ghost use Rattle.successions.specs.declared.orders.Order.TheVariants as orders;
ghost use Rattle.successions.specs.declared.orders.Report.{Report};
ghost use Rattle.successions.specs.declared.stages.Stage.TheVariants as stages;
ghost use Rattle.successions.specs.Successions.{acceptance_of};
ghost use Rattle.successions.specs.Decisions.{
  DecisionState,
  looking,
  report_at,
  is_news,
  is_newer,
  heard,
  without,
  after_end,
  counts,
  Tells,
  HasHeardAll,
  IsUnswitched,
  IsFree,
  IsAdopted,
  IsBegun,
  IsReady,
  AreAgreed,
  IsDecided,
  MayOpen,
  order_of,
};
ghost use Rattle.successions.specs.Decisions as decisions;
ghost use Rattle.leases.specs.Sets as sets;

use crate::members::{Acceptance, MOST, Members};
use crate::orders::{Order, Phase, Report};
use crate::questions::Question;
use crate::stages::Stage;
use crate::successions::{are_same, is_quiet};
use std::alloc::{AllocError, Global};
use std::marker::Model;

/// What the master of an epoch knows of a generation, and the one decision of its epoch. It reads nothing and sends
/// nothing: its caller hands it what members report and who is gone, and sends its orders.
#[derive(Drop)]
pub struct Decision {
    epoch: u64,
    generation: u64,
    members: u16,
    gone: u16,
    reports: [Option<Report>; MOST as usize],
    ended: Vec<u64>,
    stage: Stage,
}

impl Model for Decision {
    ghost use Rattle.successions.specs.Decisions.{DecisionState};

    ghost Value = { DecisionState };

    ghost view = { λ d. record {
      epoch = d.epoch;
      generation = d.generation;
      members = d.members;
      gone = d.gone;
      reports = d.reports;
      ended = d.ended.items;
      stage = d.stage;
    } };
}

impl Decision {
    /// The master of this epoch begins to look at this generation, of which these are the members: member i is the bit
    /// of value 2^i. It allocates nothing.
    pub fn new(alloc: Global, epoch: u64, generation: u64, members: u16) -> Decision
        ensures { result ≡ looking epoch generation members }
    {
        Decision {
            epoch,
            generation,
            members,
            gone: 0,
            reports: [None; MOST as usize],
            ended: Vec::new(alloc),
            stage: Stage::Looking,
        }
    }

    /// A member reported. That counts if it is of this master's epoch and generation, and no older than its last report
    /// here. Whom it knows to be gone is gone for the master too.
    pub fn hear(&mut self, from: u8, report: Report)
        ensures { self.new ≡ heard self.old from report }
    {
        if self.is_news(from, report) {
            self.gone |= report.standing.view;
            self.put(from, report);
        }
    }

    /// These members are gone: the process of each has ended, its lease is surely over, or a person has seen to it that
    /// it does nothing more.
    pub fn lose(&mut self, gone: u16)
        ensures { self.new ≡ without self.old gone }
    {
        self.gone |= gone;
    }

    /// This process has ended, whichever member of which generation it is. Fails only if memory runs out.
    pub fn end(&mut self, process: u64) -> Result<(), AllocError>
        ensures ok { OnOk result (self.new ≡ after_end self.old process) }
        ensures err { OnErr result (self.new ≡ self.old) }
    {
        self.ended.push(process)?;
        Ok(())
    }

    /// What is to be sent to each member, again and again.
    pub fn order(&self) -> Order
        ensures { result ≡ order_of self.now self.now.stage }
    {
        match self.stage {
            Stage::Looking => Order::Poll(self.epoch),
            Stage::Resuming => Order::Resume(self.epoch, self.generation),
            Stage::Proposing(next) => Order::Seal(self.epoch, self.generation, next),
            Stage::Switching(next, count) | Stage::Finishing(next, count) => {
                Order::Switch(self.epoch, self.generation, next, count)
            }
        }
    }

    /// It has the members go on, if it is free to: the answer says whether it is. If not, nothing changes.
    pub fn resume(&mut self) -> bool
        ensures free { IsTrue result ↔ IsFree self.old }
        ensures state { result ≡ true → self.new ≡ record self.old { stage = stages.Resuming } }
        ensures kept { result ≡ false → self.new ≡ self.old }
    {
        let free = self.is_free();
        if free {
            self.stage = Stage::Resuming;
        }
        free
    }

    /// It has the members accept these as the next ones, if it is free to: the answer says whether it is. If not,
    /// nothing changes.
    pub fn propose(&mut self, next: Members) -> bool
        ensures free { IsTrue result ↔ IsFree self.old }
        ensures state { result ≡ true → self.new ≡ record self.old { stage = stages.Proposing next } }
        ensures kept { result ≡ false → self.new ≡ self.old }
    {
        let may = self.is_free();
        if may {
            self.stage = Stage::Proposing(next);
        }
        may
    }

    /// It has the members accept what was accepted in the highest epoch, which the answer tells. None if it is none of
    /// those that may be adopted; then nothing changes.
    pub fn adopt(&mut self) -> Option<Members>
        ensures adopted { IfSome result (λ next. IsAdopted self.old next) }
        ensures state { IfSome result (λ next. self.new ≡ record self.old { stage = stages.Proposing next }) }
        ensures none { IfNone result ((next : Members) → IsAdopted self.old next → ⊥) }
        ensures kept { IfNone result (self.new ≡ self.old) }
    {
        match self.adoptable() {
            Some(next) => {
                self.stage = Stage::Proposing(next);
                Some(next)
            }
            None => None,
        }
    }

    /// It has the members switch to those that it has proposed, if they agree: the answer tells with a table of how
    /// many updates. None if they don't, or not yet; then nothing changes. It asks each member in turn.
    pub fn decide(&mut self) -> Option<u64>
        ensures decided { IfSome result (λ count. (next : Members) × IsDecided self.old next count
            × (self.new ≡ record self.old { stage = stages.Switching next count })) }
        ensures none { IfNone result ((next : Members) (count : ℕ) → IsDecided self.old next count → ⊥) }
        ensures kept { IfNone result (self.new ≡ self.old) }
    {
        match self.decided() {
            Some((next, count)) => {
                self.stage = Stage::Switching(next, count);
                Some(count)
            }
            None => None,
        }
    }

    /// It goes on with a switch that was begun in an earlier epoch: the answer tells to whom. None if it sees none, or
    /// has decided already; then nothing changes.
    pub fn finish(&mut self) -> Option<Members>
        ensures begun { IfSome result (λ next. (count : ℕ) × IsBegun self.old next count
            × (self.new ≡ record self.old { stage = stages.Finishing next count })) }
        ensures none { IfNone result ((next : Members) (count : ℕ) → IsBegun self.old next count → ⊥) }
        ensures kept { IfNone result (self.new ≡ self.old) }
    {
        match self.begun() {
            Some((next, count)) => {
                self.stage = Stage::Finishing(next, count);
                Some(next)
            }
            None => None,
        }
    }

    /// What is to be sent to the members of the next generation, again and again, once each member that counts has told
    /// that it has switched to it. None if it may not be opened yet, or has no number below 2^64.
    pub fn opening(&self) -> Option<Order>
        ensures opens { IfSome result (λ order. (next : Members) × MayOpen self.now next
            × (order ≡ orders.Open self.now.epoch (self.now.generation + 1) next)) }
        ensures none { IfNone result ((next : Members) → MayOpen self.now next → self.now.generation + 1 ≡ 2 ^ 64) }
    {
        match self.may_open() {
            Some(next) => match self.generation.checked_add(1) {
                Some(generation) => Some(Order::Open(self.epoch, generation, next)),
                None => None,
            },
            None => None,
        }
    }

    // Whether a report counts.
    fn is_news(&self, from: u8, report: Report) -> bool
        ensures { result ≡ is_news self.now from report }
    {
        report.epoch == self.epoch
            && report.generation == self.generation
            && is_newer(report, self.report_at(from))
    }

    // The newest report of this member.
    fn report_at(&self, i: u8) -> Option<Report>
        ensures { result ≡ report_at self.now.reports i }
    {
        report_at(self.reports.as_slice(), i)
    }

    // This is the newest report of this member.
    fn put(&mut self, i: u8, report: Report)
        ensures { self.new ≡ record self.old { reports = slice_set self.old.reports i (Some report) } }
    {
        put_at(self.reports.as_mut_slice(), i, report);
    }

    // Whether this member counts.
    fn counts(&self, i: u8) -> bool
        ensures { result ≡ counts self.now i }
    {
        i < MOST && has(self.members, i) && !has(self.gone, i)
    }

    // Whether this question is answered with yes by some member that counts.
    fn is_any(&self, question: Question) -> bool
        ensures found { result ≡ true → (i : ℕ) × (decisions.answers self.now question i ≡ true) }
        ensures none { result ≡ false → (i : ℕ) → i < 16 → decisions.answers self.now question i ≡ false }
    {
        for i in 0..MOST {
            if self.answers(question, i) {
                return true;
            }
        }
        false
    }

    // Whether this member counts, and answers the question with yes.
    fn answers(&self, question: Question, i: u8) -> bool
        ensures { result ≡ decisions.answers self.now question i }
    {
        self.counts(i) && self.answer_by(question, self.report_at(i))
    }

    // What a newest report answers.
    fn answer_by(&self, question: Question, report: Option<Report>) -> bool
        ensures { result ≡ decisions.answer_by self.now question report }
    {
        match report {
            None => is_answered_by_none(question),
            Some(report) => self.answer(question, report),
        }
    }

    // What a report answers.
    fn answer(&self, question: Question, report: Report) -> bool
        ensures { result ≡ decisions.answer_by self.now question (Some report) }
    {
        match question {
            Question::IsThere => true,
            Question::IsSilent => false,
            Question::HasSwitched => is_switched(report.phase),
            Question::HasAcceptedNothing => is_unaccepted(report.phase),
            Question::IsNotReady(next, count) => {
                !is_ready(self.epoch, next, self.gone, count, report)
            }
            Question::IsElsewhere(next) => !is_switched_to(next, report.phase),
        }
    }

    // The first report of a member that counts which answers the question with yes.
    fn find(&self, question: Question) -> Option<Report>
        ensures found { IfSome result (λ report. (i : ℕ) × (decisions.answering self.now question i ≡ Some report)) }
        ensures none { IfNone result ((i : ℕ) → i < 16 → decisions.answering self.now question i ≡ None) }
    {
        for i in 0..MOST {
            if let Some(report) = self.answering(question, i) {
                return Some(report);
            }
        }
        None
    }

    // The newest report of this member, if it counts and answers the question with yes.
    fn answering(&self, question: Question, i: u8) -> Option<Report>
        ensures { result ≡ decisions.answering self.now question i }
    {
        if self.answers(question, i) {
            self.report_at(i)
        } else {
            None
        }
    }

    // Whether each member that counts has told how it is, and some member counts.
    fn has_heard_all(&self) -> bool
        ensures { IsTrue result ↔ HasHeardAll self.now }
    {
        if !self.is_any(Question::IsThere) {
            return false;
        }
        !self.is_any(Question::IsSilent)
    }

    // Whether it looks, and each member that counts has told how it is and that it hasn't switched.
    fn looks_at_unswitched(&self) -> bool
        ensures { IsTrue result ↔ ((self.now.stage ≡ stages.Looking) × IsUnswitched self.now) }
    {
        if !is_looking(self.stage) {
            return false;
        }
        if !self.has_heard_all() {
            return false;
        }
        self.find(Question::HasSwitched).is_none()
    }

    // Whether it is free.
    fn is_free(&self) -> bool
        ensures { IsTrue result ↔ IsFree self.now }
    {
        if !self.looks_at_unswitched() {
            return false;
        }
        if self.find(Question::HasAcceptedNothing).is_some() {
            return true;
        }
        match self.highest() {
            Some(acceptance) => are_ended(
                self.ended.as_slice(),
                acceptance.next.processes.as_slice(),
            ),
            None => false,
        }
    }

    // What may be adopted.
    fn adoptable(&self) -> Option<Members>
        ensures found { IfSome result (λ next. IsAdopted self.now next) }
        ensures none { IfNone result ((next : Members) → IsAdopted self.now next → ⊥) }
    {
        if !self.looks_at_unswitched() {
            return None;
        }
        if self.find(Question::HasAcceptedNothing).is_some() {
            return None;
        }
        match self.highest() {
            Some(acceptance) => Some(acceptance.next),
            None => None,
        }
    }

    // Whom the members have agreed on, if this was proposed.
    fn decided(&self) -> Option<(Members, u64)>
        ensures found { IfSome result (λ it. IsDecided self.now it.0 it.1) }
        ensures none { IfNone result ((next : Members) (count : ℕ) → IsDecided self.now next count → ⊥) }
    {
        match self.stage {
            Stage::Proposing(next) => match self.agreed(next) {
                Some(count) => Some((next, count)),
                None => None,
            },
            Stage::Looking | Stage::Resuming | Stage::Switching(_, _) | Stage::Finishing(_, _) =>
                None,
        }
    }

    // With a table of how many updates the members agree on these.
    fn agreed(&self, next: Members) -> Option<u64>
        ensures found { IfSome result (λ count. AreAgreed self.now next count) }
        ensures none { IfNone result ((count : ℕ) → AreAgreed self.now next count → ⊥) }
    {
        if !self.has_heard_all() {
            return None;
        }
        match self.find(Question::IsThere) {
            Some(report) => self.agreed_on(next, report.standing.last),
            None => None,
        }
    }

    // The count, if each that counts is ready to switch to these with a table of so many updates.
    fn agreed_on(&self, next: Members, count: u64) -> Option<u64>
        ensures found { IfSome result (λ it. (it ≡ count) × ((i : ℕ) (report : Report) → Tells self.now i report
            → IsReady self.now.epoch next self.now.gone count report)) }
        ensures none { IfNone result (((i : ℕ) (report : Report) → Tells self.now i report
            → IsReady self.now.epoch next self.now.gone count report) → ⊥) }
    {
        match self.find(Question::IsNotReady(next, count)) {
            Some(_) => None,
            None => Some(count),
        }
    }

    // Whom some member has switched to, with a table of how many updates.
    fn begun(&self) -> Option<(Members, u64)>
        ensures found { IfSome result (λ it. IsBegun self.now it.0 it.1) }
        ensures none { IfNone result ((next : Members) (count : ℕ) → IsBegun self.now next count → ⊥) }
    {
        if !is_looking(self.stage) {
            return None;
        }
        if !self.has_heard_all() {
            return None;
        }
        match self.find(Question::HasSwitched) {
            Some(report) => switched_in(report.phase, report.standing.last),
            None => None,
        }
    }

    // Who may be opened.
    fn may_open(&self) -> Option<Members>
        ensures found { IfSome result (λ next. MayOpen self.now next) }
        ensures none { IfNone result ((next : Members) → MayOpen self.now next → ⊥) }
    {
        match next_of(self.stage) {
            Some(next) => {
                if self.is_any(Question::IsElsewhere(next)) {
                    None
                } else {
                    Some(next)
                }
            }
            None => None,
        }
    }

    // What was accepted in the highest epoch.
    fn highest(&self) -> Option<Acceptance>
        ensures { result ≡ decisions.highest_below self.now 16 }
    {
        let mut highest = None;
        for i in 0..MOST {
            highest = higher(highest, self.accepted(i));
        }
        highest
    }

    // What this member has accepted, if it counts.
    fn accepted(&self, i: u8) -> Option<Acceptance>
        ensures { result ≡ decisions.accepted_at self.now i }
    {
        if self.counts(i) {
            acceptance_in(self.report_at(i))
        } else {
            None
        }
    }
}

// Whether a set has this member.
fn has(set: u16, i: u8) -> bool
    requires member { i < 16 }
    ensures { result ≡ sets.has set i }
{
    (set >> i) & 1 == 1
}

// The newest report of this member, of those by their ids.
fn report_at(reports: &[Option<Report>], i: u8) -> Option<Report>
    ensures { result ≡ report_at reports.now i }
{
    let i = usize::from(i);
    if i < reports.len() { reports[i] } else { None }
}

// This is the newest report of this member.
fn put_at(reports: &mut [Option<Report>], i: u8, report: Report)
    ensures { reports.new ≡ slice_set reports.old i (Some report) }
{
    let i = usize::from(i);
    if i < reports.len() {
        reports[i] = Some(report);
    }
}

// Whether a report is no older than another one.
fn is_newer(report: Report, earlier: Option<Report>) -> bool
    ensures { result ≡ is_newer report earlier }
{
    match earlier {
        Some(earlier) => earlier.number <= report.number,
        None => true,
    }
}

// Whether it looks.
fn is_looking(stage: Stage) -> bool
    ensures { IsTrue result ↔ (stage ≡ stages.Looking) }
{
    match stage {
        Stage::Looking => true,
        Stage::Resuming | Stage::Proposing(_) | Stage::Switching(_, _) | Stage::Finishing(_, _) =>
            false,
    }
}

// What is answered of a member that hasn't told anything.
fn is_answered_by_none(question: Question) -> bool
    ensures { (d : DecisionState) → result ≡ decisions.answer_by d question None }
{
    match question {
        Question::IsThere
        | Question::IsSilent
        | Question::IsNotReady(_, _)
        | Question::IsElsewhere(_) => true,
        Question::HasSwitched | Question::HasAcceptedNothing => false,
    }
}

fn is_switched(phase: Phase) -> bool
    ensures { result ≡ decisions.is_switched phase }
{
    match phase {
        Phase::Switched(_) => true,
        Phase::Started | Phase::Serving | Phase::Sealed(_) => false,
    }
}

fn is_unaccepted(phase: Phase) -> bool
    ensures { result ≡ decisions.is_unaccepted phase }
{
    match phase {
        Phase::Started | Phase::Serving => true,
        Phase::Sealed(_) | Phase::Switched(_) => false,
    }
}

fn is_sealed_to(epoch: u64, next: Members, phase: Phase) -> bool
    ensures { result ≡ decisions.is_sealed_to epoch next phase }
{
    match phase {
        Phase::Sealed(acceptance) => acceptance.epoch == epoch && are_same(acceptance.next, next),
        Phase::Started | Phase::Serving | Phase::Switched(_) => false,
    }
}

fn is_switched_to(next: Members, phase: Phase) -> bool
    ensures { result ≡ decisions.is_switched_to next phase }
{
    match phase {
        Phase::Switched(acceptance) => are_same(acceptance.next, next),
        Phase::Started | Phase::Serving | Phase::Sealed(_) => false,
    }
}

fn is_ready(epoch: u64, next: Members, gone: u16, count: u64, report: Report) -> bool
    ensures { result ≡ decisions.is_ready epoch next gone count report }
{
    is_sealed_to(epoch, next, report.phase)
        && report.standing.view == gone
        && is_quiet(report.standing, count)
}

// What a report says was accepted.
fn acceptance_in(report: Option<Report>) -> Option<Acceptance>
    ensures { result ≡ decisions.acceptance_in report }
{
    match report {
        Some(report) => acceptance_of(report.phase),
        None => None,
    }
}

fn acceptance_of(phase: Phase) -> Option<Acceptance>
    ensures { result ≡ acceptance_of phase }
{
    match phase {
        Phase::Sealed(acceptance) | Phase::Switched(acceptance) => Some(acceptance),
        Phase::Started | Phase::Serving => None,
    }
}

// The one of the higher epoch; the earlier one if it is the same.
fn higher(earlier: Option<Acceptance>, later: Option<Acceptance>) -> Option<Acceptance>
    ensures { result ≡ decisions.higher earlier later }
{
    match (earlier, later) {
        (Some(one), Some(other)) => {
            if one.epoch < other.epoch {
                Some(other)
            } else {
                Some(one)
            }
        }
        (None, later) => later,
        (earlier, None) => earlier,
    }
}

// Whether each of these processes has ended. A place with 0 is no process.
fn are_ended(ended: &[u64], processes: &[u64]) -> bool
    ensures all { result ≡ true → (k : ℕ) → k < length processes.now → slice_index processes.now k ≢ 0
        → Contains ended.now (slice_index processes.now k) }
    ensures some { result ≡ false → (k : ℕ) × (k < length processes.now) × (slice_index processes.now k ≢ 0)
        × (Contains ended.now (slice_index processes.now k) → ⊥) }
{
    for process in processes {
        if *process != 0 && !has_ended(ended, *process) {
            return false;
        }
    }
    true
}

// Whether this process has ended.
fn has_ended(ended: &[u64], process: u64) -> bool
    ensures { IsTrue result ↔ Contains ended.now process }
{
    ended.contains(&process)
}

// Whom it has members switch to.
fn next_of(stage: Stage) -> Option<Members>
    ensures { result ≡ decisions.switches_to stage }
{
    match stage {
        Stage::Switching(next, _) | Stage::Finishing(next, _) => Some(next),
        Stage::Looking | Stage::Resuming | Stage::Proposing(_) => None,
    }
}

// Whom a report says that its member has switched to.
fn switched_in(phase: Phase, last: u64) -> Option<(Members, u64)>
    ensures { result ≡ decisions.switched_in phase last }
{
    match phase {
        Phase::Switched(acceptance) => Some((acceptance.next, last)),
        Phase::Started | Phase::Serving | Phase::Sealed(_) => None,
    }
}
