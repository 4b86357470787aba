//! Laws of the request grammar: what the session finds at the front of a stream is what the grammar says, and nothing
//! else.
ghost use Rattle.std.specs.Prelude.{◌≡◌, ℕ, ◌≤◌, List, ◌++◌, length, take, Some};
ghost use Rattle.proto.specs.declared.requests.Request.{Request};
ghost use Rattle.proto.specs.Grammar.{Spells};
ghost use Rattle.proto.specs.Fronts.{front};

/// The parser accepts only the grammar: a request that it finds is spelled by exactly the bytes that it consumes.
pub fn found_is_spelled()
    ensures { (bytes : List ℕ) (found : Request × ℕ) → front bytes ≡ Some found
        → (found.1 ≤ length bytes) × (1 ≤ found.1) × Spells found.0 (take found.1 bytes) }
{}

/// The parser accepts all of the grammar: a request that is spelled at the front is found, whatever bytes follow.
pub fn spelled_is_found()
    ensures { (request : Request) (spelling more : List ℕ)
        → Spells request spelling
        → front (spelling ++ more) ≡ Some (request, length spelling) }
{}

/// The grammar is unambiguous: no bytes begin with the spellings of two requests.
pub fn one_request_at_a_front()
    ensures { (r s : Request) (x y more others : List ℕ)
        → Spells r x
        → Spells s y
        → x ++ more ≡ y ++ others
        → (r ≡ s) × (x ≡ y) }
{}

/// Later bytes never change a result: a complete request at the front stays there, whatever bytes follow.
pub fn whole_stays_whole()
    ensures { (bytes more : List ℕ) (found : Request × ℕ)
        → front bytes ≡ Some found
        → front (bytes ++ more) ≡ Some found }
{}
