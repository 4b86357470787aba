//! The bytes of messages: first a message's numbers, then the bytes of each.
ghost use Rattle.std.specs.Prelude.{◌≡◌, ◌++◌, ◌∷◌, [], IfOk, OnOk};
ghost use Rattle.control_messages.specs.Spellings.{Spells, spelled, numbers_of, order_numbers, report_numbers};
ghost use Rattle.control_messages.specs.Spellings.{acceptance_numbers, marker_numbers, memory_numbers, phase_numbers};
ghost use Rattle.control_messages.specs.Spellings.{lease_numbers, server_numbers, standing_numbers, usage_numbers};
ghost use Rattle.control_messages.specs.Spellings.{AreNumbers, flag, optional};
ghost use Rattle.control_messages.specs.ServerParts.{head_numbers, work_numbers};

use crate::messages::ControlMessage;
use crate::widths::hold_widths;
use chain_status::{LeaseState, Memory, ServerReport, Usage};
use seals::Marker;
use std::alloc::{AllocError, Global};
use successions::{Acceptance, Order, Phase, Report, Standing};

/// The one spelling of a message (docs/FORMATS.md, "Control messages"; this project's rule), from which it is read
/// again. Memory is its only refusal.
#[tactic(auto, using(crate::proofs::Spelled::is_spelled))]
pub fn encode(alloc: Global, message: &ControlMessage) -> Result<Vec<u8>, AllocError>
    ensures { IfOk result (λ bytes. Spells message.now bytes.items) }
{
    hold_widths(message);
    let numbers = numbers_of(alloc, message)?;
    bytes_of(alloc, numbers.as_slice())
}

// The bytes of numbers.
#[tactic(auto, unfolding(crate::specs::Spellings::spelled))]
fn bytes_of(alloc: Global, numbers: &[u64]) -> Result<Vec<u8>, AllocError>
    ensures bytes { IfOk result (λ bytes. bytes.items ≡ spelled numbers.now) }
    ensures numbers { AreNumbers numbers.now }
{
    let mut bytes = Vec::new(alloc);
    for number in numbers {
        bytes.extend_from_slice(&number.to_be_bytes())?;
    }
    Ok(bytes)
}

// The numbers of a message.
fn numbers_of(alloc: Global, message: &ControlMessage) -> Result<Vec<u64>, AllocError>
    ensures { IfOk result (λ numbers. numbers.items ≡ numbers_of message.now) }
{
    let mut numbers = Vec::new(alloc);
    put_message(&mut numbers, message)?;
    Ok(numbers)
}

fn put_message(out: &mut Vec<u64>, message: &ControlMessage) -> Result<(), AllocError>
    ensures { OnOk result (out.new.items ≡ out.old.items ++ numbers_of message.now) }
{
    match message {
        ControlMessage::Order(order) => put_order(out, order),
        ControlMessage::Report(report) => put_report(out, report),
        ControlMessage::Marker(marker) => put_marker(out, marker),
        ControlMessage::StatusQuestion => out.extend_from_slice(&[8]),
        ControlMessage::Status(report) => put_server(out, report),
    }
}

fn put_order(out: &mut Vec<u64>, order: &Order) -> Result<(), AllocError>
    ensures { OnOk result (out.new.items ≡ out.old.items ++ order_numbers order.now) }
{
    match order {
        Order::Seal(epoch, generation, next) => {
            out.extend_from_slice(&[1, *epoch, *generation])?;
            out.extend_from_slice(&next.processes)
        }
        Order::Resume(epoch, generation) => out.extend_from_slice(&[2, *epoch, *generation]),
        Order::Poll(epoch) => out.extend_from_slice(&[3, *epoch]),
        Order::Switch(epoch, generation, next, count) => {
            out.extend_from_slice(&[4, *epoch, *generation])?;
            out.extend_from_slice(&next.processes)?;
            out.extend_from_slice(&[*count])
        }
        Order::Open(epoch, generation, own) => {
            out.extend_from_slice(&[5, *epoch, *generation])?;
            out.extend_from_slice(&own.processes)
        }
    }
}

fn put_report(out: &mut Vec<u64>, report: &Report) -> Result<(), AllocError>
    ensures { OnOk result (out.new.items ≡ out.old.items ++ 6 ∷ report_numbers report.now) }
{
    out.extend_from_slice(&[6, report.number, report.epoch, report.generation])?;
    put_phase(out, &report.phase)?;
    put_standing(out, &report.standing)
}

fn put_phase(out: &mut Vec<u64>, phase: &Phase) -> Result<(), AllocError>
    ensures { OnOk result (out.new.items ≡ out.old.items ++ phase_numbers phase.now) }
{
    match phase {
        Phase::Started => out.extend_from_slice(&[0]),
        Phase::Serving => out.extend_from_slice(&[1]),
        Phase::Sealed(acceptance) => {
            out.extend_from_slice(&[2])?;
            put_acceptance(out, acceptance)
        }
        Phase::Switched(acceptance) => {
            out.extend_from_slice(&[3])?;
            put_acceptance(out, acceptance)
        }
    }
}

fn put_acceptance(out: &mut Vec<u64>, acceptance: &Acceptance) -> Result<(), AllocError>
    ensures { OnOk result (out.new.items ≡ out.old.items ++ acceptance_numbers acceptance.now) }
{
    out.extend_from_slice(&[acceptance.epoch])?;
    out.extend_from_slice(&acceptance.next.processes)
}

fn put_standing(out: &mut Vec<u64>, standing: &Standing) -> Result<(), AllocError>
    ensures { OnOk result (out.new.items ≡ out.old.items ++ standing_numbers standing.now) }
{
    out.extend_from_slice(&[
        u64::from(standing.view),
        standing.last,
        standing.committed,
        flag(standing.idle),
    ])
}

// A flag: 1 if it is set, else 0.
fn flag(is_set: bool) -> u64
    ensures { result ≡ flag is_set }
{
    if is_set { 1 } else { 0 }
}

fn put_marker(out: &mut Vec<u64>, marker: &Marker) -> Result<(), AllocError>
    ensures { OnOk result (out.new.items ≡ out.old.items ++ 7 ∷ marker_numbers marker.now) }
{
    out.extend_from_slice(&[
        7,
        marker.generation,
        marker.epoch,
        u64::from(marker.numbers.view),
        marker.numbers.last,
        marker.numbers.committed,
    ])
}

fn put_server(out: &mut Vec<u64>, report: &ServerReport) -> Result<(), AllocError>
    ensures { OnOk result (out.new.items ≡ out.old.items ++ 9 ∷ server_numbers report.now) }
{
    put_head(out, report)?;
    put_memory(out, &report.memory)?;
    put_usage(out, &report.connections)?;
    put_usage(out, &report.seats)?;
    put_work(out, report)
}

fn put_memory(out: &mut Vec<u64>, memory: &Memory) -> Result<(), AllocError>
    ensures { OnOk result (out.new.items ≡ out.old.items ++ memory_numbers memory.now) }
{
    out.extend_from_slice(&[memory.items, memory.estimate])?;
    match memory.limit {
        None => out.extend_from_slice(&[0]),
        Some(limit) => out.extend_from_slice(&[1, limit]),
    }
}

fn put_usage(out: &mut Vec<u64>, usage: &Usage) -> Result<(), AllocError>
    ensures { OnOk result (out.new.items ≡ out.old.items ++ usage_numbers usage.now) }
{
    out.extend_from_slice(&[usage.used, usage.limit])
}

fn put_lease(out: &mut Vec<u64>, lease: &Option<LeaseState>) -> Result<(), AllocError>
    ensures { OnOk result (out.new.items ≡ out.old.items ++ optional lease_numbers lease.now) }
{
    match lease {
        None => out.extend_from_slice(&[0]),
        Some(lease) => out.extend_from_slice(&[1, lease.reign, lease.left]),
    }
}

// A server's report up to its memory.
fn put_head(out: &mut Vec<u64>, report: &ServerReport) -> Result<(), AllocError>
    ensures { OnOk result (out.new.items ≡ out.old.items ++ head_numbers report.now) }
{
    out.extend_from_slice(&[
        9,
        report.id as u64,
        report.servers as u64,
        report.version.major as u64,
        report.version.minor as u64,
        report.version.patch as u64,
        report.start,
        report.uptime,
        report.view as u64,
        report.stalled as u64,
        report.last,
        report.committed,
    ])
}

// A server's report from its calls on.
fn put_work(out: &mut Vec<u64>, report: &ServerReport) -> Result<(), AllocError>
    ensures { OnOk result (out.new.items ≡ out.old.items ++ work_numbers report.now) }
{
    out.extend_from_slice(&[
        report.calls.clean_reads,
        report.calls.dirty_reads,
        report.calls.updates,
        report.questions,
        report.inbox.length,
        report.inbox.taken,
    ])?;
    put_lease(out, &report.lease)?;
    out.extend_from_slice(&[report.refused.connections, report.refused.stores])
}
