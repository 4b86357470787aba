//! How long a watch waits before it connects to its server again: a rule that reads no clock and sends nothing.
ghost use Rattle.std.specs.Prelude.{◌≡◌, ◌≤◌, ◌+◌, IfSome, IfNone};
ghost use Rattle.master_decisions.specs.Reconnecting.{pause_before, pause_of_beat};

/// The longest pause between two connections, in milliseconds: however seldom a master beats, it sees in that time that
/// a server has failed.
pub(crate) const LONGEST_PAUSE: u64 = 1_000;

/// For how many milliseconds a watch waits before it connects again, if the server has accepted a connection, the last
/// one so long ago: until a beat lies between the two. Once a connection has stood for a beat it waits no more.
pub fn pause_before(beat: u64, passed: Option<u64>) -> u64
    ensures first { IfNone passed (result ≡ 0) }
    ensures apart { IfSome passed (λ passed. pause_of_beat beat ≤ passed + result) }
    ensures soon { IfSome passed (λ passed. pause_of_beat beat ≤ passed → result ≡ 0) }
    ensures exact { result ≡ pause_before beat passed }
{
    match passed {
        None => 0,
        Some(passed) => beat.min(LONGEST_PAUSE).saturating_sub(passed),
    }
}
