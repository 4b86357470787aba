//! Laws of what is written: by the turns of a stream, each call's with what it came to.
ghost use Rattle.std.specs.Prelude.{◌≡◌, ℕ, List, [], ◌++◌, map, None, Some};
ghost use Rattle.table.specs.declared.operations.Reply.{Reply};
ghost use Rattle.proto.specs.declared.texts.Form.{Form};
ghost use Rattle.proto.specs.declared.texts.Form.TheVariants.{Silent};
ghost use Rattle.proto.specs.Turns.{Outcome, Replied, Turn, outcome_text, refusal_text, text};
ghost use Rattle.proto.specs.Sessions.{Held, Writes, answered_by, next_of, refused_by};
ghost use Rattle.proto.specs.Streams.{outcome_texts, texts};

/// A fault's line is written as its turn is given; a call writes nothing, and its form is kept.
pub fn next_writes()
    ensures { (h : Held) → Writes h (next_of h) }
{}

/// An answer writes the reply's text, in the form that the call is answered in, and no call is open then.
pub fn answer_writes()
    ensures text { (h : Held) (form : Form) (reply : Reply) → h.asked ≡ Some form
        → (answered_by h.asked h reply).out ≡ h.out ++ text form reply }
    ensures idle { (h : Held) (reply : Reply) → (answered_by h.asked h reply).asked ≡ None }
{}

/// A refusal writes the line that says so, in the form that the call is answered in, and no call is open then.
pub fn refusal_writes()
    ensures text { (h : Held) (form : Form) → h.asked ≡ Some form
        → (refused_by h.asked h).out ≡ h.out ++ refusal_text form }
    ensures idle { (h : Held) → (refused_by h.asked h).asked ≡ None }
{}

/// A silent call writes nothing, whatever it came to.
pub fn silent_writes_nothing()
    ensures { (outcome : Outcome) → outcome_text Silent outcome ≡ [] }
{}

/// The texts of turns with what their calls came to are a beginning of those of more turns, with more of that.
pub fn fewer_outcomes_begin()
    ensures { (ts us : List Turn) (os ps : List Outcome)
        → (rest : List ℕ) × (outcome_texts (ts ++ us) (os ++ ps) ≡ outcome_texts ts os ++ rest) }
{}

/// If no call was refused, the texts are those of the replies.
pub fn replies_are_outcomes()
    ensures { (ts : List Turn) (rs : List Reply) → outcome_texts ts (map Replied rs) ≡ texts ts rs }
{}
