//! Laws: members that all report to be idle are quiet, and stay so; and members come to be idle.
ghost use Rattle.std.specs.Prelude.{ℕ};
ghost use Rattle.seals.specs.declared.markers.Numbers.{Numbers};
ghost use Rattle.seals.specs.Runs.{Run, May, IsReached, AreIdle, AreHeld, AreQuiet};

/// If each member that isn't left out has reported, at whatever moment, that it is idle with the same numbers in the
/// same seal, is in that seal still, and knows that just those left out are gone, then these members are quiet: no
/// update is on its way from one of them to another, or from a thread to its own server; and each of them still has
/// just these numbers, and no update in work. So it is, however late threads and links are, whatever was begun and
/// passed on before, and whatever seals there were earlier.
pub fn idle_members_are_quiet()
    ensures { (members generation threads epoch : ℕ) (numbers : Numbers) (w : Run)
        → IsReached members generation threads w
        → AreIdle members w epoch numbers
        → AreQuiet members threads numbers w }
{}

/// Members that are quiet stay so, whatever happens, as long as none of them begins updates again or learns that more
/// are gone. They may be told of further seals meanwhile.
pub fn quiet_members_stay_so()
    ensures { (members threads : ℕ) (numbers : Numbers) (w next : Run)
        → AreQuiet members threads numbers w
        → May members threads w next
        → AreHeld members numbers.view next
        → AreQuiet members threads numbers next }
{}

/// There is such a run: one of two members begins an update, both are sealed, the update is passed on, and both report
/// that they are idle.
pub fn members_become_idle()
    ensures { (w : Run) × IsReached 3 4 1 w × AreIdle 3 w 7 (record { view = 0; last = 1; committed = 1 }) }
{}
