//! What the types of a message's members keep beside that numbers fit in eight bytes. Nothing is done here.
ghost use Rattle.std.specs.Prelude.{◌≡◌, ◌<◌, ◌^◌, length};
ghost use Rattle.control_messages.specs.Spellings.{HasMembers, HasOrderWidths, HasPhaseWidths, HasWidths};
ghost use Rattle.control_messages.specs.Spellings.{HasServerWidths, HasStandingWidths, HasMarkerWidths};

use crate::messages::ControlMessage;
use chain_status::ServerReport;
use successions::{Members, Order, Phase};

/// Narrow numbers are in their ranges, and there are sixteen processes.
pub fn hold_widths(message: &ControlMessage)
    ensures { HasWidths message.now }
{
    match message {
        ControlMessage::Order(order) => hold_order(order),
        ControlMessage::Report(report) => {
            hold_phase(&report.phase);
            hold_two(report.standing.view);
        }
        ControlMessage::Marker(marker) => hold_two(marker.numbers.view),
        ControlMessage::StatusQuestion => {}
        ControlMessage::Status(report) => hold_server(report),
    }
}

fn hold_order(order: &Order)
    ensures { HasOrderWidths order.now }
{
    match order {
        Order::Seal(_, _, members) | Order::Switch(_, _, members, _) | Order::Open(_, _, members) =>
            {
                hold_members(members);
            }
        Order::Resume(..) | Order::Poll(_) => {}
    }
}

fn hold_phase(phase: &Phase)
    ensures { HasPhaseWidths phase.now }
{
    match phase {
        Phase::Started | Phase::Serving => {}
        Phase::Sealed(acceptance) | Phase::Switched(acceptance) => hold_members(&acceptance.next),
    }
}

fn hold_members(members: &Members)
    ensures { HasMembers members.now }
{
    let _processes = members.processes;
}

fn hold_server(report: &ServerReport)
    ensures { HasServerWidths report.now }
{
    hold_one(report.id);
    hold_one(report.servers);
    hold_two(report.version.major);
    hold_two(report.version.minor);
    hold_two(report.version.patch);
    hold_two(report.view);
    hold_two(report.stalled);
}

fn hold_one(n: u8)
    ensures { n < 2 ^ 8 }
{}

fn hold_two(n: u16)
    ensures { n < 2 ^ 16 }
{}
