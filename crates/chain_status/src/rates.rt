//! How many calls a second there were between two looks.
ghost use Rattle.std.specs.Prelude.{◌≡◌};
ghost use Rattle.chain_status.specs.Rates as rates;

use crate::reports::ServerReport;
use serde::Serialize;

/// How many nanoseconds a second has.
pub(crate) const SECOND: u64 = 1_000_000_000;

/// How many calls a second there were, rounded down.
#[derive(Clone, Copy, Serialize)]
pub struct Rates {
    /// Reads that were answered from the server's own table.
    pub clean_reads: u64,
    /// Reads that were answered after a question to the tail.
    pub dirty_reads: u64,
    /// Updates.
    pub updates: u64,
}

/// How much a counter grew in a second, rounded down, if it grew so much in so many nanoseconds; 2^64 - 1 if it is
/// more. A counter that didn't grow has grown by 0, and no time is taken for a nanosecond.
pub fn per_second(before: u64, after: u64, nanoseconds: u64) -> u64
    ensures { result ≡ rates.per_second before after nanoseconds }
{
    let grown = u128::from(after.saturating_sub(before)) * u128::from(SECOND);
    let rate = grown / u128::from(nanoseconds.max(1));
    match u64::try_from(rate) {
        Ok(rate) => rate,
        Err(_) => u64::MAX,
    }
}

/// How many calls a second a server answered between two reports of it, so many nanoseconds apart. None if they are of
/// two starts.
pub fn rates_between(before: &ServerReport, after: &ServerReport, nanoseconds: u64) -> Option<Rates>
    ensures { result ≡ rates.rates_between before.now after.now nanoseconds }
{
    if before.start != after.start {
        return None;
    }
    let (one, other) = (before.calls, after.calls);
    Some(Rates {
        clean_reads: per_second(one.clean_reads, other.clean_reads, nanoseconds),
        dirty_reads: per_second(one.dirty_reads, other.dirty_reads, nanoseconds),
        updates: per_second(one.updates, other.updates, nanoseconds),
    })
}
