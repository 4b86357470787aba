//! Laws: whatever happens, one generation follows, and it is open only after the last look at the one before.
ghost use Rattle.std.specs.Prelude.{◌≡◌, ℕ, true, false, Some};
ghost use Rattle.successions.specs.declared.members.Members.{Members};
ghost use Rattle.successions.specs.Decisions.{is_member};
ghost use Rattle.successions.specs.Lives.{Life, IsReached, Follows, HasAccepted, HasLeft};

/// Whoever starts as a member of a next generation, and lives or was ever open, does so with the same members as each
/// other one; and each member of the generation before that isn't gone has accepted just these: it begins no update.
/// So it is, whatever masters decide and whichever of their orders come, late, again or never, and whoever ends when.
pub fn one_successor()
    ensures one { (members generation : ℕ) (own : Members) (w : Life) (p q : ℕ) (one other : Members)
        → IsReached members generation own w
        → Follows w p one
        → Follows w q other
        → one ≡ other }
    ensures accepted { (members generation : ℕ) (own : Members) (w : Life) (p i : ℕ) (next : Members)
        → IsReached members generation own w
        → Follows w p next
        → is_member members i ≡ true
        → w.gone i ≡ false
        → HasAccepted w i next }
{}

/// If a member of a next generation was ever open, each member of the one before has switched to it or is gone: it
/// answers no look any more.
pub fn opens_after_looks()
    ensures { (members generation : ℕ) (own : Members) (w : Life) (p i : ℕ) (next : Members)
        → IsReached members generation own w
        → w.opened p ≡ true
        → w.started p ≡ Some next
        → is_member members i ≡ true
        → HasLeft w i next }
{}
