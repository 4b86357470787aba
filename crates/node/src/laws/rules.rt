//! Laws of the rules that a step is made of: each keeps what every server keeps.
ghost use Rattle.std.specs.Prelude.{◌≡◌, ◌≢◌, ℕ, ◌+◌, ◌<◌, ◌≤◌, true, false, List, Some};
ghost use Rattle.table.specs.Operations.{is_update};
ghost use Rattle.table.specs.declared.operations.Call.{Call};
ghost use Rattle.versions.specs.Entries.{LogEntry, IsEntry};
ghost use Rattle.versions.specs.Stores.{last_number, is_clean};
ghost use Rattle.node.specs.declared.servers.OpenUpdate.{OpenUpdate};
ghost use Rattle.node.specs.declared.servers.OpenRead.{OpenRead};
ghost use Rattle.node.specs.declared.messages.Body.{Body};
ghost use Rattle.node.specs.declared.messages.Input.{Input};
ghost use Rattle.node.specs.Views.{View, has, is_below};
ghost use Rattle.node.specs.Servers.{ServerState, head_of, is_head, is_tail, tail_of};
ghost use Rattle.node.specs.Numbering.{appended, entered, entry_of, is_taken, risen, taken};
ghost use Rattle.node.specs.Reading.{asked};
ghost use Rattle.node.specs.Joining.{join, widened};
ghost use Rattle.node.specs.Steps.{least_open, received, taken_in, trimmed};
ghost use Rattle.node.specs.Lawful.{AreReads, AreUpdates, HasEntry, HoldsEntry, IsBody, IsCall, IsInput, IsSettled};
ghost use Rattle.node.specs.Lawful.{IsSound};

/// What the head makes of an update is an entry, and each change of a server keeps it sound.
pub fn rules_keep_servers_sound()
    ensures entry { (s : ServerState) (origin : ℕ) (id : ℕ) (call : Call)
        → origin < 16
        → IsCall call
        → is_update call.op ≡ true
        → is_taken s origin id ≡ true
        → IsEntry (entry_of s origin id call) }
    ensures taken { (s : ServerState) (origin : ℕ) (id : ℕ) (call : Call)
        → origin < 16
        → IsCall call
        → is_update call.op ≡ true
        → IsSound s
        → IsSound (taken s origin id call) }
    ensures appended { (s : ServerState) (e : LogEntry)
        → IsEntry e
        → e.number ≡ last_number s.store + 1
        → IsSound s
        → IsSound (appended s e) }
    ensures risen { (s : ServerState) (n : ℕ)
        → s.store.acked ≤ n
        → n ≤ last_number s.store
        → IsSound s
        → IsSound (risen s n) }
    ensures entered { (s : ServerState) (port : ℕ) (call : Call)
        → IsCall call
        → is_update call.op ≡ true
        → IsSound s
        → IsSound (entered s port call) }
    ensures asked { (s : ServerState) (port : ℕ) (key : List ℕ) → IsSound s → IsSound (asked s port key) }
    ensures widened { (s : ServerState) (v : View)
        → is_below v s.count ≡ true
        → has v s.id ≡ false
        → IsSound s
        → IsSound (widened s v) }
    ensures trimmed { (s : ServerState) → IsSound s → IsSound (trimmed s) }
{}

/// A join, a message and each input keep a server sound, and settled if it is the tail.
pub fn joins_keep_servers_sound()
    ensures join { (s : ServerState) (v : View)
        → is_below v s.count ≡ true
        → has v s.id ≡ false
        → IsSound s
        → IsSettled s
        → IsSound (join s v).state × IsSettled (join s v).state }
    ensures received { (s : ServerState) (i : ℕ) (body : Body)
        → i < 16
        → IsBody body
        → HasEntry body
        → IsSound s
        → IsSettled s
        → IsSound (received s i body).state × IsSettled (received s i body).state }
    ensures taken_in { (s : ServerState) (input : Input)
        → IsInput input
        → HoldsEntry input
        → IsSound s
        → IsSettled s
        → IsSound (taken_in s input).state × IsSettled (taken_in s input).state }
    // who has acknowledged everything has only clean keys
    ensures clean { (s : ServerState) (key : List ℕ)
        → s.store.acked ≡ last_number s.store
        → is_clean s.store key ≡ true }
    // neither the head nor the tail is a server's own id, unless it is the one
    ensures other_head { (s : ServerState) (j : ℕ)
        → is_head s ≡ false
        → head_of s ≡ Some j
        → (j < s.count) × (j ≢ s.id) }
    ensures other_tail { (s : ServerState) (j : ℕ)
        → is_tail s ≡ false
        → tail_of s ≡ Some j
        → (j < s.count) × (j ≢ s.id) }
{}

/// Open updates have ids below the next id; open reads have asks below the next ask, and lower bounds up to the
/// commit number, the least of which is between the floor and that number.
pub fn open_calls_are_ordered()
    ensures updates { (above : ℕ) (us : List OpenUpdate) (next_id : ℕ)
        → AreUpdates above us next_id
        → above < next_id }
    ensures reads { (above : ℕ) (lower_bound : ℕ) (rs : List OpenRead) (next_ask : ℕ) (acked : ℕ)
        → AreReads above lower_bound rs next_ask acked
        → (above < next_ask) × (lower_bound ≤ acked) }
    ensures least { (above : ℕ) (lower_bound : ℕ) (rs : List OpenRead) (next_ask : ℕ) (acked : ℕ)
        → AreReads above lower_bound rs next_ask acked
        → (lower_bound ≤ least_open acked rs) × (least_open acked rs ≤ acked) }
{}
