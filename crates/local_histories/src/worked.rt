//! Worked histories: what they are as moves; and histories that break one part of the rules, and have no order.
ghost use Rattle.std.specs.Prelude.{◌≡◌, List, [], ◌∷◌, ◌++◌, Some};
ghost use Rattle.table.specs.declared.operations.Reply.TheVariants.{Stored};
ghost use Rattle.world.specs.WorkedSchedules.{name};
ghost use Rattle.local_histories.specs.CallOrders.{reply_to, HasNoOrder};
ghost use Rattle.local_histories.specs.Following.{MayFollow};
ghost use Rattle.local_histories.specs.LocalRules.{IsOpened, AreOf, KeepRules, AreLocallyRight};
ghost use Rattle.local_histories.specs.Standing.{all_moves};
ghost use Rattle.local_histories.specs.WorkedHistories.{opened, head_and_tail, set_events, look_at_tail};
ghost use Rattle.local_histories.specs.WorkedHistories.{set_and_look_moves, look_at_first, look_at_last, alone};
ghost use Rattle.local_histories.specs.WorkedHistories.{older_events, unshown_events};
ghost use Rattle.local_histories.specs.WorkedHistories.{told_events, unput_events, tail_and_head, early_events};
ghost use Rattle.local_histories.specs.WrongRules.{AllFollow, FollowsWithoutBoards, FollowsWithoutNotices};
ghost use Rattle.local_histories.specs.WrongRules.{FollowsWithoutLinks, FollowsWithoutTurns};
ghost use Rattle.local_histories.specs.WrongRules.{AreRightWithoutBoards, AreRightWithoutNotices};

/// A client of the head sets a key, the tail commits the set, and a reader of the tail looks. Each object did what its
/// contract says.
pub fn set_and_look_follow()
    ensures opened { IsOpened (opened 2 head_and_tail) }
    ensures events { AreOf (opened 2 head_and_tail) (set_events ++ look_at_tail ∷ []) }
    ensures right { AreLocallyRight (opened 2 head_and_tail) (set_events ++ look_at_tail ∷ []) }
    ensures follow { AllFollow MayFollow (opened 2 head_and_tail) [] (set_events ++ look_at_tail ∷ []) }
    ensures moves { all_moves (opened 2 head_and_tail) (set_events ++ look_at_tail ∷ []) ≡ set_and_look_moves }
    ensures stored { reply_to (opened 2 head_and_tail) set_events (name 0 0) ≡ Some Stored }
{}

/// One server: a client sets a key, and a reader without a port looks. Each object did what its contract says: so the
/// premises of the law can be met.
pub fn set_and_look_are_right()
    ensures opened { IsOpened (opened 1 alone) }
    ensures events { AreOf (opened 1 alone) (older_events ++ look_at_last ∷ []) }
    ensures right { AreLocallyRight (opened 1 alone) (older_events ++ look_at_last ∷ []) }
{}

/// If a look may find an older face than the one that stands, a history has no order.
pub fn without_boards_there_is_no_order()
    ensures follow { AllFollow FollowsWithoutBoards (opened 1 alone) [] (older_events ++ look_at_first 1 0 1 ∷ []) }
    ensures right { AreRightWithoutBoards (opened 1 alone) (older_events ++ look_at_first 1 0 1 ∷ []) }
    ensures none { HasNoOrder (opened 1 alone) (older_events ++ look_at_first 1 0 1 ∷ []) }
{}

/// If a notice may come of a server that goes on, a history has no order.
pub fn without_notices_there_is_no_order()
    ensures follow { AllFollow FollowsWithoutNotices (opened 2 head_and_tail) []
        (told_events ++ look_at_first 2 1 0 ∷ []) }
    ensures right { AreRightWithoutNotices (opened 2 head_and_tail) (told_events ++ look_at_first 2 1 0 ∷ []) }
    ensures none { HasNoOrder (opened 2 head_and_tail) (told_events ++ look_at_first 2 1 0 ∷ []) }
{}

/// If a message may come that wasn't put, a history has no order.
pub fn without_links_there_is_no_order()
    ensures follow { AllFollow FollowsWithoutLinks (opened 2 head_and_tail) []
        (unput_events ++ look_at_first 2 1 0 ∷ []) }
    ensures none { HasNoOrder (opened 2 head_and_tail) (unput_events ++ look_at_first 2 1 0 ∷ []) }
{}

/// If what a step puts out may be put before the face after it is shown, a history has no order.
pub fn without_turns_there_is_no_order()
    ensures follow { AllFollow FollowsWithoutTurns (opened 2 tail_and_head) []
        (early_events ++ look_at_first 2 0 0 ∷ []) }
    ensures none { HasNoOrder (opened 2 tail_and_head) (early_events ++ look_at_first 2 0 0 ∷ []) }
{}

/// A history that keeps all rules of tables has no order, if the events of a worker needn't be turns.
pub fn rules_alone_give_no_order()
    ensures rules { KeepRules (opened 1 alone) (unshown_events ++ look_at_first 1 0 1 ∷ []) }
    ensures none { HasNoOrder (opened 1 alone) (unshown_events ++ look_at_first 1 0 1 ∷ []) }
{}
