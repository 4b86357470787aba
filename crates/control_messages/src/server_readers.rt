//! What a server says of itself, read from the bytes after its kind.
ghost use Rattle.control_messages.specs.Readings.{Gives, calls_at, inbox_at, lease_at, limit_at, maybe_lease_at};
ghost use Rattle.control_messages.specs.Readings.{memory_at, refused_at, server_at, usage_at, version_at};

use crate::readers::{number_at, u8_at, u16_at};
use chain_status::{Calls, Inbox, LeaseState, Memory, Refused, ServerReport, Usage, Version};

/// A server's report.
#[tactic(auto, unfolding(crate::specs::Readings::server_at))]
pub fn server_at(bytes: &[u8]) -> Option<(ServerReport, &[u8])>
    ensures { Gives (λ x. (x.0, x.1.now)) result (server_at bytes.now) }
{
    let (id, rest) = u8_at(bytes)?;
    let (servers, rest) = u8_at(rest)?;
    let (version, rest) = version_at(rest)?;
    let (start, rest) = number_at(rest)?;
    let (uptime, rest) = number_at(rest)?;
    let (view, rest) = u16_at(rest)?;
    let (stalled, rest) = u16_at(rest)?;
    let (last, rest) = number_at(rest)?;
    let (committed, rest) = number_at(rest)?;
    let (memory, rest) = memory_at(rest)?;
    let (connections, rest) = usage_at(rest)?;
    let (seats, rest) = usage_at(rest)?;
    let (calls, rest) = calls_at(rest)?;
    let (questions, rest) = number_at(rest)?;
    let (inbox, rest) = inbox_at(rest)?;
    let (lease, rest) = maybe_lease_at(rest)?;
    let (refused, rest) = refused_at(rest)?;
    let report = ServerReport {
        id,
        servers,
        version,
        start,
        uptime,
        view,
        stalled,
        last,
        committed,
        memory,
        connections,
        seats,
        calls,
        questions,
        inbox,
        lease,
        refused,
    };
    Some((report, rest))
}

#[tactic(auto, unfolding(crate::specs::Readings::version_at))]
fn version_at(bytes: &[u8]) -> Option<(Version, &[u8])>
    ensures { Gives (λ x. (x.0, x.1.now)) result (version_at bytes.now) }
{
    let (major, rest) = u16_at(bytes)?;
    let (minor, rest) = u16_at(rest)?;
    let (patch, rest) = u16_at(rest)?;
    let version = Version {
        major,
        minor,
        patch,
    };
    Some((version, rest))
}

#[tactic(auto, unfolding(crate::specs::Readings::memory_at))]
fn memory_at(bytes: &[u8]) -> Option<(Memory, &[u8])>
    ensures { Gives (λ x. (x.0, x.1.now)) result (memory_at bytes.now) }
{
    let (items, rest) = number_at(bytes)?;
    let (estimate, rest) = number_at(rest)?;
    let (limit, rest) = limit_at(rest)?;
    let memory = Memory {
        items,
        estimate,
        limit,
    };
    Some((memory, rest))
}

// A limit, if there is one.
#[tactic(auto, unfolding(crate::specs::Readings::limit_at))]
fn limit_at(bytes: &[u8]) -> Option<(Option<u64>, &[u8])>
    ensures { Gives (λ x. (x.0, x.1.now)) result (limit_at bytes.now) }
{
    let (is_there, rest) = number_at(bytes)?;
    match is_there {
        0 => Some((None, rest)),
        1 => {
            let (limit, rest) = number_at(rest)?;
            Some((Some(limit), rest))
        }
        _ => None,
    }
}

#[tactic(auto, unfolding(crate::specs::Readings::usage_at))]
fn usage_at(bytes: &[u8]) -> Option<(Usage, &[u8])>
    ensures { Gives (λ x. (x.0, x.1.now)) result (usage_at bytes.now) }
{
    let (used, rest) = number_at(bytes)?;
    let (limit, rest) = number_at(rest)?;
    Some((Usage { used, limit }, rest))
}

#[tactic(auto, unfolding(crate::specs::Readings::calls_at))]
fn calls_at(bytes: &[u8]) -> Option<(Calls, &[u8])>
    ensures { Gives (λ x. (x.0, x.1.now)) result (calls_at bytes.now) }
{
    let (clean_reads, rest) = number_at(bytes)?;
    let (dirty_reads, rest) = number_at(rest)?;
    let (updates, rest) = number_at(rest)?;
    let calls = Calls {
        clean_reads,
        dirty_reads,
        updates,
    };
    Some((calls, rest))
}

#[tactic(auto, unfolding(crate::specs::Readings::inbox_at))]
fn inbox_at(bytes: &[u8]) -> Option<(Inbox, &[u8])>
    ensures { Gives (λ x. (x.0, x.1.now)) result (inbox_at bytes.now) }
{
    let (length, rest) = number_at(bytes)?;
    let (taken, rest) = number_at(rest)?;
    Some((Inbox { length, taken }, rest))
}

// A lease, if there is one.
#[tactic(auto, unfolding(crate::specs::Readings::maybe_lease_at))]
fn maybe_lease_at(bytes: &[u8]) -> Option<(Option<LeaseState>, &[u8])>
    ensures { Gives (λ x. (x.0, x.1.now)) result (maybe_lease_at bytes.now) }
{
    let (is_there, rest) = number_at(bytes)?;
    match is_there {
        0 => Some((None, rest)),
        1 => {
            let (lease, rest) = lease_at(rest)?;
            Some((Some(lease), rest))
        }
        _ => None,
    }
}

#[tactic(auto, unfolding(crate::specs::Readings::lease_at))]
fn lease_at(bytes: &[u8]) -> Option<(LeaseState, &[u8])>
    ensures { Gives (λ x. (x.0, x.1.now)) result (lease_at bytes.now) }
{
    let (reign, rest) = number_at(bytes)?;
    let (left, rest) = number_at(rest)?;
    Some((LeaseState { reign, left }, rest))
}

#[tactic(auto, unfolding(crate::specs::Readings::refused_at))]
fn refused_at(bytes: &[u8]) -> Option<(Refused, &[u8])>
    ensures { Gives (λ x. (x.0, x.1.now)) result (refused_at bytes.now) }
{
    let (connections, rest) = number_at(bytes)?;
    let (stores, rest) = number_at(rest)?;
    let refused = Refused {
        connections,
        stores,
    };
    Some((refused, rest))
}
