//! A law of the board: what was seen is a beginning of what stands.
ghost use Rattle.std.specs.Prelude.{◌≡◌, ◌⊎◌, ℕ, List, All, Contains};
ghost use mathlib.Core.Option.{some};
ghost use lib.ListN.{get_elem?};
ghost use Rattle.faces.specs.declared.faces.Face.{Face};
ghost use Rattle.faces.specs.declared.boards.BoardKnowledge.{BoardKnowledge};
ghost use Rattle.faces.specs.Boards.{Keeps};
ghost use Rattle.faces.specs.Histories.{History, IsLater};

/// For who compares what readers of one server were shown, or one of them and the publisher: each history that a place
/// has seen, a reader's by a look or the publisher's by a publish, is a beginning of the history that is published. So
/// of any two of them one is a beginning of the other.
pub fn seen_begins_published()
    ensures each { (x : Face) (views : List BoardKnowledge) (i : ℕ) (v : BoardKnowledge)
        → Keeps x views
        → get_elem? views i ≡ some v
        → All (λ c. IsLater c x.history) v.histories }
    ensures any_two { (x : Face) (views : List BoardKnowledge) (i j : ℕ) (v w : BoardKnowledge) (c d : History)
        → Keeps x views
        → get_elem? views i ≡ some v
        → get_elem? views j ≡ some w
        → Contains v.histories c
        → Contains w.histories d
        → IsLater c d ⊎ IsLater d c }
{}
