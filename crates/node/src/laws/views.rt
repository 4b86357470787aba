//! Laws of views: sets of servers, and the order of the chain in one.
ghost use Rattle.std.specs.Prelude.{◌≡◌, ℕ, ◌+◌, ◌<◌, ◌≤◌, ◌||◌, true, false, Some, None};
ghost use Rattle.node.specs.Views.{View, has, is_below, next_from, predecessor, single, union};
ghost use Rattle.node.specs.Chains.{IsNext, IsPredecessor};

/// A view is a set of servers: the empty one names nobody, a single one its server alone, and a union those that one of
/// the two names.
pub fn views_are_sets()
    ensures empty { (i : ℕ) → has 0 i ≡ false }
    ensures single { (j : ℕ) → has (single j) j ≡ true }
    ensures single_alone { (j : ℕ) (i : ℕ) → has (single j) i ≡ true → i ≡ j }
    ensures union { (u : View) (v : View) (i : ℕ) → has (union u v) i ≡ (has u i || has v i) }
{}

/// A view below a count names no server at the count or above it. The empty one is, and so is one of a server below the
/// count, and the union of two that are.
pub fn views_stay_below()
    ensures named { (v : View) (count : ℕ) (i : ℕ) → is_below v count ≡ true → count ≤ i → has v i ≡ false }
    ensures empty { (count : ℕ) → is_below 0 count ≡ true }
    ensures single { (j : ℕ) (count : ℕ) → j < count → is_below (single j) count ≡ true }
    ensures union { (u : View) (v : View) (count : ℕ)
        → is_below u count ≡ true
        → is_below v count ≡ true
        → is_below (union u v) count ≡ true }
{}

/// A neighbor is the nearest server outside the view, and there is none exactly if the view names all on that side. The
/// head, the successor and the tail are such neighbors.
pub fn neighbors_are_nearest()
    ensures next { (v : View) (k : ℕ) (many : ℕ) (j : ℕ) → next_from v k many ≡ Some j → IsNext v k j }
    ensures next_within { (v : View) (k : ℕ) (many : ℕ) (j : ℕ) → next_from v k many ≡ Some j → j < k + many }
    ensures no_next { (v : View) (k : ℕ) (many : ℕ)
        → next_from v k many ≡ None
        → (x : ℕ) → k ≤ x → x < k + many → has v x ≡ true }
    ensures predecessor { (v : View) (i : ℕ) (p : ℕ) → predecessor v i ≡ Some p → IsPredecessor v i p }
    ensures no_predecessor { (v : View) (i : ℕ) → predecessor v i ≡ None → (x : ℕ) → x < i → has v x ≡ true }
{}
