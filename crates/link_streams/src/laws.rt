//! Laws: a link between two starts loses nothing, whatever its connections lose.
ghost use Rattle.std.specs.Prelude.{◌≡◌, ◌≤◌, ℕ, true, List, ◌∷◌, ◌++◌, length, Some};
ghost use Rattle.link_streams.specs.Streams.{may_confirm, may_resume};
ghost use Rattle.link_streams.specs.Links.{Connection, Event, IsCaughtUp, fresh, run, talk};

/// Whatever happens to a link, in whatever order, and wherever its connections break.
pub fn links_lose_nothing()
    // The bytes that were handed on are the first ones that were put: in order, each once.
    ensures order { (start : ℕ) (events : List Event)
        → (later : List ℕ)
        × ((run (fresh start) events).sending.put ≡ (run (fresh start) events).handed ++ later) }
    // They are all of them, if nothing is on its way;
    ensures all { (start : ℕ) (events : List Event) (c : Connection)
        → (run (fresh start) events).connection ≡ Some c
        → IsCaughtUp (run (fresh start) events) c
        → (run (fresh start) events).handed ≡ (run (fresh start) events).sending.put }
    // and a new connection suffices for that, whatever was lost before.
    ensures heals { (start : ℕ) (events : List Event) (n : ℕ)
        → length (run (fresh start) events).sending.put ≤ n
        → (run (run (fresh start) events) (talk n)).handed ≡ (run (fresh start) events).sending.put }
    // What isn't handed on is kept.
    ensures kept { (start : ℕ) (events : List Event)
        → (run (fresh start) events).sending.confirmed ≤ length (run (fresh start) events).handed }
    // The receiver may always go on where it stands, and a confirmation is never refused.
    ensures resumes { (start : ℕ) (events : List Event)
        → may_resume (run (fresh start) events).sending (length (run (fresh start) events).handed) ≡ true }
    ensures confirms { (start : ℕ) (events : List Event) (c : Connection) (count : ℕ) (later : List ℕ)
        → (run (fresh start) events).connection ≡ Some c
        → c.confirmations ≡ count ∷ later
        → may_confirm (run (fresh start) events).sending count ≡ true }
{}
