//! Messages, read from their bytes: each number from the front, with the bytes after it.
ghost use Rattle.std.specs.Prelude.{◌≡◌, ℕ, ◌^◌, IfSome, Some};
ghost use Rattle.control_messages.specs.declared.messages.ControlMessage.{ControlMessage};
ghost use Rattle.control_messages.specs.Spellings.{Spells};
ghost use Rattle.control_messages.specs.Readings.{Gives, flag_at, message_at, message_in, narrow_at, number_at};
ghost use Rattle.control_messages.specs.Readings.{of_kind_at};

use crate::messages::ControlMessage;
use crate::order_readers::order_at;
use crate::report_readers::{marker_at, report_at};
use crate::server_readers::server_at;

/// The message that all of these bytes spell, if there is one.
pub fn decode(bytes: &[u8]) -> Option<ControlMessage>
    // What is read is spelled so.
    ensures found { IfSome result (λ m. Spells m bytes.now) }
    // What is spelled so is read.
    ensures only { (m : ControlMessage) → Spells m bytes.now → result ≡ Some m }
{
    message_in(bytes)
}

#[tactic(auto, unfolding(crate::specs::Readings::message_in))]
fn message_in(bytes: &[u8]) -> Option<ControlMessage>
    ensures { Gives (λ m. m) result (message_in bytes.now) }
{
    let (message, rest) = message_at(bytes)?;
    if rest.is_empty() { Some(message) } else { None }
}

#[tactic(auto, unfolding(crate::specs::Readings::message_at))]
fn message_at(bytes: &[u8]) -> Option<(ControlMessage, &[u8])>
    ensures { Gives (λ x. (x.0, x.1.now)) result (message_at bytes.now) }
{
    let (kind, rest) = number_at(bytes)?;
    of_kind_at(kind, rest)
}

#[tactic(auto, unfolding(crate::specs::Readings::of_kind_at))]
fn of_kind_at(kind: u64, bytes: &[u8]) -> Option<(ControlMessage, &[u8])>
    ensures { Gives (λ x. (x.0, x.1.now)) result (of_kind_at kind bytes.now) }
{
    match kind {
        6 => {
            let (report, rest) = report_at(bytes)?;
            Some((ControlMessage::Report(report), rest))
        }
        7 => {
            let (marker, rest) = marker_at(bytes)?;
            Some((ControlMessage::Marker(marker), rest))
        }
        8 => Some((ControlMessage::StatusQuestion, bytes)),
        9 => {
            let (report, rest) = server_at(bytes)?;
            Some((ControlMessage::Status(report), rest))
        }
        _ => {
            let (order, rest) = order_at(kind, bytes)?;
            Some((ControlMessage::Order(order), rest))
        }
    }
}

/// A number of eight bytes, the highest first.
#[tactic(auto, unfolding(crate::specs::Readings::number_at))]
pub fn number_at(bytes: &[u8]) -> Option<(u64, &[u8])>
    ensures { Gives (λ x. (x.0, x.1.now)) result (number_at bytes.now) }
{
    if bytes.len() < 8 {
        return None;
    }
    let (front, rest) = bytes.split_at(8);
    let number = u64::from_be_bytes([
        front[0], front[1], front[2], front[3], front[4], front[5], front[6], front[7],
    ]);
    Some((number, rest))
}

/// A number below 2^8.
#[tactic(auto, unfolding(crate::specs::Readings::narrow_at))]
pub fn u8_at(bytes: &[u8]) -> Option<(u8, &[u8])>
    ensures { Gives (λ x. (x.0, x.1.now)) result (narrow_at (2 ^ 8) bytes.now) }
{
    let (number, rest) = number_at(bytes)?;
    if number < 256 {
        Some((number as u8, rest))
    } else {
        None
    }
}

/// A number below 2^16.
#[tactic(auto, unfolding(crate::specs::Readings::narrow_at))]
pub fn u16_at(bytes: &[u8]) -> Option<(u16, &[u8])>
    ensures { Gives (λ x. (x.0, x.1.now)) result (narrow_at (2 ^ 16) bytes.now) }
{
    let (number, rest) = number_at(bytes)?;
    if number < 65536 {
        Some((number as u16, rest))
    } else {
        None
    }
}

/// A flag: 0 or 1.
#[tactic(auto, unfolding(crate::specs::Readings::flag_at, crate::specs::Readings::flag_of_at))]
pub fn flag_at(bytes: &[u8]) -> Option<(bool, &[u8])>
    ensures { Gives (λ x. (x.0, x.1.now)) result (flag_at bytes.now) }
{
    let (number, rest) = number_at(bytes)?;
    match number {
        0 => Some((false, rest)),
        1 => Some((true, rest)),
        _ => None,
    }
}
