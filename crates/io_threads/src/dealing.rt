//! Which thread serves the next connection.
ghost use Rattle.std.specs.Prelude.{◌≡◌, ◌<◌, ◌≤◌, ℕ, nat_lt, MatchOption, length};
ghost use Rattle.std.specs.List.{IsFirstBest};
ghost use Rattle.io_threads.specs.Dealing.{IsFirstBelow, IsNext, of_thread};

/// The thread that gets the next connection, if threads have these: the first with fewer than `dense`, or if all have
/// that many, the first of those with the fewest. So few connections stand at one thread, which then does their work
/// without waking others, and many are dealt out. None if there is no thread.
pub(crate) fn next_thread(connections: &[u64], dense: u64) -> Option<usize>
    ensures next { MatchOption result (length connections.now ≡ 0) (IsNext dense connections.now) }
{
    if connections.is_empty() {
        return None;
    }
    match first_below(connections, dense) {
        Some(thread) => Some(thread),
        None => Some(first_of_fewest(connections)),
    }
}

// The first with fewer than `dense`.
fn first_below(connections: &[u64], dense: u64) -> Option<usize>
    ensures first { MatchOption result
        ((k : ℕ) → k < length connections.now → dense ≤ of_thread connections.now k)
        (IsFirstBelow dense connections.now) }
{
    for thread in 0..connections.len() {
        if connections[thread] < dense {
            return Some(thread);
        }
    }
    None
}

// The first of those with the fewest.
fn first_of_fewest(connections: &[u64]) -> usize
    requires { 0 < length connections.now }
    ensures { IsFirstBest nat_lt connections.now (length connections.now) result }
{
    let mut best = 0usize;
    for thread in 1..connections.len() {
        if connections[thread] < connections[best] {
            best = thread;
        }
    }
    best
}
