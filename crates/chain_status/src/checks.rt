//! What is found to be wrong with a chain by a look at it.
ghost use Rattle.std.specs.Prelude.{◌≡◌, OnOk, IfOk};
ghost use Rattle.chain_status.specs.Faults as faults;
ghost use Rattle.chain_status.specs.Checks as checks;

use crate::answers::ServerAnswer;
use crate::faults::Fault;
use crate::looks::ChainLook;
use crate::reports::{Memory, ServerReport, Usage, Version};
use crate::roles::{Role, last_below};
use std::alloc::{AllocError, Global};

/// All that is wrong with a chain by a look at it, and by an earlier one: first what is wrong with the chain, then with
/// each server, by the ids. If there is no earlier look, a look of no server stands for it. Fails only if memory runs
/// out.
#[tactic(auto, using(crate::proofs::Steps::faults_step), unfolding(crate::specs::Checks::faults_below))]
pub fn faults_of(
    alloc: Global,
    earlier: &ChainLook,
    look: &ChainLook,
) -> Result<Vec<Fault>, AllocError>
    ensures { IfOk result (λ found. found.items ≡ checks.faults_of earlier.now look.now) }
{
    let mut found = Vec::new(alloc);
    add_found(&mut found, &chain_checks(look))?;
    for i in 0..look.servers() {
        add_found(&mut found, &server_checks(earlier, look, i))?;
    }
    Ok(found)
}

// Adds those that were found.
fn add_found(kept: &mut Vec<Fault>, found: &[Option<Fault>]) -> Result<(), AllocError>
    ensures { OnOk result (kept.new.items ≡ faults.with_found kept.old.items found.now) }
{
    for one in found {
        if let Some(fault) = one {
            kept.push(*fault)?;
        }
    }
    Ok(())
}

// What is wrong with the chain.
fn chain_checks(look: &ChainLook) -> [Option<Fault>; 3]
    ensures { result ≡ checks.chain_checks look.now }
{
    let left = last_below(look.gone(), look.servers());
    [
        found(left.is_none(), Fault::NoneLeft),
        found(!has_report(look), Fault::NoneAnswers),
        last_one(look, left),
    ]
}

// The last one, if it is the only one of a chain that had more.
fn last_one(look: &ChainLook, left: Option<u8>) -> Option<Fault>
    ensures { result ≡ checks.last_one look.now left }
{
    match left {
        Some(i) => found(
            look.servers() > 1 && look.role(i) == Role::Only,
            Fault::LastOne(i),
        ),
        None => None,
    }
}

// Whether any server said how it is.
fn has_report(look: &ChainLook) -> bool
    ensures { result ≡ checks.has_report look.now }
{
    first_version(look).is_some()
}

// The version of the first server that said how it is.
#[tactic(auto, using(crate::proofs::Steps::version_step), unfolding(crate::specs::Checks::version_below))]
fn first_version(look: &ChainLook) -> Option<Version>
    ensures { result ≡ checks.first_version look.now }
{
    let mut first = None;
    for i in 0..look.servers() {
        first = first_of(first, look.report(i));
    }
    first
}

// The version that was found already, or that of this report.
fn first_of(first: Option<Version>, report: Option<ServerReport>) -> Option<Version>
    ensures { result ≡ checks.first_of first report }
{
    match (first, report) {
        (Some(version), _) => Some(version),
        (None, Some(report)) => Some(report.version),
        (None, None) => None,
    }
}

// What is wrong with a server: that it is gone and nothing else, or its answer.
fn server_checks(earlier: &ChainLook, look: &ChainLook, i: u8) -> [Option<Fault>; 8]
    ensures { result ≡ checks.server_checks earlier.now look.now i }
{
    if look.role(i) == Role::Gone {
        return only(Some(Fault::Gone(i)));
    }
    match look.answer(i) {
        Some(ServerAnswer::Reported(report)) => report_checks(
            i,
            report,
            earlier.report(i),
            look.gone(),
            first_version(look),
        ),
        Some(ServerAnswer::NoConnection(why)) => only(Some(Fault::NoConnection(i, why))),
        Some(ServerAnswer::Stranger(why)) => only(Some(Fault::Stranger(i, why))),
        Some(ServerAnswer::NoAnswer) => only(Some(Fault::NoAnswer(i))),
        None => only(None),
    }
}

// This one alone.
fn only(fault: Option<Fault>) -> [Option<Fault>; 8]
    ensures { result ≡ checks.only fault }
{
    [fault, None, None, None, None, None, None, None]
}

// What is wrong with a server that isn't gone, by its report.
fn report_checks(
    i: u8,
    report: ServerReport,
    before: Option<ServerReport>,
    gone: u16,
    first: Option<Version>,
) -> [Option<Fault>; 8]
    ensures { result ≡ checks.report_checks i report before gone first }
{
    let unknown = outside(gone, report.view);
    let stalled = outside(report.stalled, gone);
    [
        found(unknown != 0, Fault::Unaware(i, unknown)),
        found(stalled != 0, Fault::Stalled(i, stalled)),
        found(is_lease_over(report), Fault::LeaseOver(i)),
        found(is_stuck(report, before), Fault::Stuck(i)),
        memory_check(i, report.memory),
        found(is_used_up(report.connections), Fault::ConnectionsFull(i)),
        found(is_other(report.version, first), Fault::OtherVersion(i)),
        found(is_anew(report, before), Fault::StartedAnew(i)),
    ]
}

// A fault, if it is there.
fn found(is_there: bool, fault: Fault) -> Option<Fault>
    ensures { result ≡ checks.found is_there fault }
{
    if is_there { Some(fault) } else { None }
}

// Those of a set that aren't in another one.
fn outside(set: u16, other: u16) -> u16
    ensures { result ≡ checks.outside set other }
{
    set ^ (set & other)
}

// Whether a server has a lease, and it is over.
fn is_lease_over(report: ServerReport) -> bool
    ensures { result ≡ checks.is_lease_over report.lease }
{
    match report.lease {
        Some(lease) => lease.left == 0,
        None => false,
    }
}

// Whether inputs wait, and waited before, of which none was taken.
fn is_stuck(report: ServerReport, before: Option<ServerReport>) -> bool
    ensures { result ≡ checks.is_stuck report before }
{
    match before {
        Some(before) => {
            before.start == report.start
                && before.inbox.taken == report.inbox.taken
                && before.inbox.length > 0
                && report.inbox.length > 0
        }
        None => false,
    }
}

// Whether the items take as much as they may, or four fifths of it.
fn memory_check(i: u8, memory: Memory) -> Option<Fault>
    ensures { result ≡ checks.memory_check i memory }
{
    let limit = memory.limit?;
    if memory.estimate >= limit {
        Some(Fault::MemoryFull(i))
    } else {
        found(
            5 * u128::from(memory.estimate) >= 4 * u128::from(limit),
            Fault::MemoryHigh(i),
        )
    }
}

// Whether as many are in use as may be.
fn is_used_up(usage: Usage) -> bool
    ensures { result ≡ checks.is_used_up usage }
{
    usage.used >= usage.limit
}

// Whether there is a first version, and this is another one.
fn is_other(version: Version, first: Option<Version>) -> bool
    ensures { result ≡ checks.is_other version first }
{
    match first {
        Some(first) => {
            version.major != first.major
                || version.minor != first.minor
                || version.patch != first.patch
        }
        None => false,
    }
}

// Whether it is another start than before.
fn is_anew(report: ServerReport, before: Option<ServerReport>) -> bool
    ensures { result ≡ checks.is_anew report before }
{
    match before {
        Some(before) => before.start != report.start,
        None => false,
    }
}
