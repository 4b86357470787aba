//! Laws of the format: one message for each bytes, and one spelling for each message.
ghost use Rattle.std.specs.Prelude.{◌≡◌, List, ℕ};
ghost use Rattle.control_messages.specs.declared.messages.ControlMessage.{ControlMessage};
ghost use Rattle.control_messages.specs.Spellings.{Spells};

/// No bytes spell two messages.
pub fn one_message()
    ensures { (m other : ControlMessage) (bytes : List ℕ) → Spells m bytes → Spells other bytes → m ≡ other }
{}

/// No message has two spellings.
pub fn one_spelling()
    ensures { (m : ControlMessage) (bytes others : List ℕ) → Spells m bytes → Spells m others → bytes ≡ others }
{}
