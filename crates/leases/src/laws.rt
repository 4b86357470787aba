//! Laws: a server that others were told is gone by the rule had taken its last look before; and the code keeps to the
//! rule.
ghost use Rattle.std.specs.Prelude.{◌≡◌, ◌≢◌, ◌⊎◌, ℕ, Bool, true, List, length, Option, Some, ◌<◌, ◌≤◌, ◌-◌};
ghost use Rattle.leases.specs.declared.orders.Order.TheVariants as orders;
ghost use Rattle.leases.specs.declared.watches.WatchStanding.TheVariants.{Watched, Over, Gone};
ghost use Rattle.leases.specs.declared.watches.WatchDue.TheVariants.{Beat, TellSilent, TellGone};
ghost use Rattle.leases.specs.declared.server_records.Due.TheVariants as dues;
ghost use Rattle.leases.specs.Clocks.{Clock, NeverFalls, IsHardlyFaster, IsSurelyOver};
ghost use Rattle.leases.specs.Leases as leases;
ghost use Rattle.leases.specs.Leases.{LeasedAnswer, Notice, Pair, IsSound, IsBeatByRule, IsNoticeByRule, IsAnswered};
ghost use Rattle.leases.specs.Sets.{has};
ghost use Rattle.leases.specs.Holding.{unheld, hears, Hearing, holds, IsHeldBy, IsLearnedBy};
ghost use Rattle.leases.specs.Watching.{WatchState, Happening, due, happens, IsRefused};
ghost use Rattle.leases.specs.ServerRecords.{
  ServerRecordState,
  begun,
  Call,
  calls,
  watch_due_of,
  HasReported,
  HasKnown,
};
ghost use Rattle.leases.specs.MasterMachines.{MasterMachineState, is_cut_off, sparing, due_at};
ghost use Rattle.leases.specs.Runs.{TimedOrder, Doing, IsCalledSilent, AnswersLook};
ghost use Rattle.leases.specs.Serving.{IsServed};
ghost use Rattle.leases.specs.WrongRules.{IsLateByReceipt, IsLateByTerm, IsLateByLooking};

/// If another server was told by the rule that a server is gone, then each look that this one answered was taken
/// before: whoever sent the beat by which it was answered, whether it came late, out of turn or twice; and if the
/// server was stopped between the look and the reading of its clock, or after that.
pub fn looks_before_tellings()
    ensures { (pair : Pair) (term : ℕ) (clock : Clock) (notice : Notice) (beat : leases.Beat) (look : LeasedAnswer)
        → IsSound pair
        → NeverFalls clock
        → IsHardlyFaster clock pair.clock
        → IsNoticeByRule pair term clock notice
        → IsBeatByRule pair term notice beat
        → IsAnswered pair.clock term beat look
        → look.taken < notice.told }
{}

/// The same of the machines. A master's `Watch` called a server silent, and another server was told of it in the
/// master's epoch. The server heard orders (`Lease::hear`), of any masters, whose server records had the beats sent
/// (`ServerRecord`). Then each look that it answered while its lease held was taken before. What is assumed of the ways
/// between them is that no answer comes from nowhere, nor too early (`IsSent`), and that whom the server knew to be
/// gone had ended.
pub fn machines_look_before_tellings()
    ensures { (pair : Pair) (term other : ℕ) (clock : Clock) (first : ℕ) (w : WatchState) (doings : List Doing)
        (whole : Bool) (notice : Notice) (timed_orders : List TimedOrder) (look : LeasedAnswer)
        → IsSound pair
        → NeverFalls clock
        → IsHardlyFaster clock pair.clock
        → IsCalledSilent pair term clock first w doings whole notice
        → IsServed pair term other notice timed_orders
        → AnswersLook pair term timed_orders look
        → look.taken < notice.told }
{}

/// A server keeps to the rule of looks and of beats.
pub fn leases_are_held_by_beats()
    // If its lease holds, it does so by a beat that the server took: of the epoch that it was in then, with a stamp
    // that its clock had shown, from which on less than the term has passed.
    ensures held { (term : ℕ) (hearings : List Hearing) (now : ℕ)
        → holds (hears (unheld (Some term)) hearings) now ≡ true
        → IsHeldBy (unheld (Some term)) term hearings now }
    // If it tells that it knew another server to be gone while its lease held, it did so.
    ensures known { (term : Option ℕ) (hearings : List Hearing) (id : ℕ)
        → has (hears (unheld term) hearings).known id ≡ true
        → IsLearnedBy (unheld term) hearings id }
{}

/// A watch keeps to the rule of notices.
pub fn tellings_are_by_rule()
    // The others are told that a server was silent only once its lease is surely over, counted from when it was heard
    // for the last time; unless they were told before;
    ensures over { (w : WatchState) (whole : Bool) (now : ℕ)
        → w.standing ≢ Over
        → due w whole now ≡ TellSilent
        → (term : ℕ) × ((w.term ≡ Some term) × IsSurelyOver term (now - w.heard)) }
    // they are told that it does nothing more only after a refusal;
    ensures gone { (w : WatchState) (happenings : List Happening) (whole : Bool) (now : ℕ)
        → w.standing ≢ Gone
        → due (happens w happenings) whole now ≡ TellGone
        → IsRefused happenings }
    // a beat brings back the stamp that was heard then, and only in a whole epoch;
    ensures last { (w : WatchState) (whole : Bool) (now stamp : ℕ)
        → due w whole now ≡ Beat (Some stamp)
        → (whole ≡ true) × (stamp ≡ w.stamp) }
    // what was heard when a beat was sent isn't later than what is heard after it;
    ensures heard { (w : WatchState) (happenings : List Happening)
        → w.heard ≤ (happens w happenings).heard }
    // and once the server was told, it gets no beat any more.
    ensures silent { (w : WatchState) (happenings : List Happening) (whole : Bool) (now : ℕ) (stamp : Option ℕ)
        → w.standing ≢ Watched
        → due (happens w happenings) whole now ≢ Beat stamp }
{}

/// A master that is cut off, since nobody was heard for long though beats went out in time, tells no server that it is
/// gone for its silence; so it doesn't tell the last one that is left. Later it may tell one that has answered since.
pub fn cut_off_masters_wait()
    ensures { (m : MasterMachineState) (id now epoch other : ℕ)
        → is_cut_off m now ≡ true
        → id < length m.server_records
        → due_at (sparing m now).server_records id now ≢ dues.Server (orders.Silent epoch other) }
{}

/// If a server record has a stamp brought back, its server is in the master's epoch; and each other server has told
/// that it is, and didn't know then that this one is gone, or this one has told that it knew that one to be gone while
/// its lease held.
pub fn server_records_beat_in_whole_epochs()
    ensures own { (w : ServerRecordState) (now stamp : ℕ) → watch_due_of w now ≡ Beat (Some stamp) → w.is_in ≡ true }
    ensures whole { (w : ServerRecordState) (epoch : ℕ) (all : List Call) (now stamp id : ℕ)
        → watch_due_of (calls (begun w epoch) all) now ≡ Beat (Some stamp)
        → has w.others id ≡ true
        → HasReported w.own epoch all id ⊎ HasKnown w.id all id }
{}

/// Other rules would not do: with each of them a server may answer a look that was taken after others were told.
pub fn each_rule_is_needed()
    // If a lease runs from when a beat came, then no wait is long enough, since a beat may come at any time: it may lie
    // in a socket while the server is stopped.
    ensures stamp { (term wait : ℕ) → 0 < term
        → (beat : leases.Beat) × ((look : LeasedAnswer) × IsLateByReceipt term wait beat look) }
    // The term alone isn't long enough, by a clock that is a tenth faster.
    ensures margin { (master : Clock) × ((server : Clock) × ((term : ℕ) × ((beat : leases.Beat) × ((look : LeasedAnswer)
        × IsLateByTerm master server term beat look)))) }
    // If the clock is read before the look, then no wait is long enough.
    ensures after { (term wait : ℕ) → 0 < term
        → (beat : leases.Beat) × ((look : LeasedAnswer) × IsLateByLooking term wait beat look) }
{}
