//! Orders of masters, read from the bytes after their kind.
ghost use Rattle.control_messages.specs.Readings.{Gives, members_at, open_at, order_at, poll_at, resume_at, seal_at};
ghost use Rattle.control_messages.specs.Readings.{switch_at};

use crate::readers::number_at;
use successions::{Members, Order};

/// An order of this kind.
#[tactic(auto, unfolding(crate::specs::Readings::order_at))]
pub fn order_at(kind: u64, bytes: &[u8]) -> Option<(Order, &[u8])>
    ensures { Gives (λ x. (x.0, x.1.now)) result (order_at kind bytes.now) }
{
    match kind {
        1 => seal_at(bytes),
        2 => resume_at(bytes),
        3 => poll_at(bytes),
        4 => switch_at(bytes),
        5 => open_at(bytes),
        _ => None,
    }
}

#[tactic(auto, unfolding(crate::specs::Readings::seal_at))]
fn seal_at(bytes: &[u8]) -> Option<(Order, &[u8])>
    ensures { Gives (λ x. (x.0, x.1.now)) result (seal_at bytes.now) }
{
    let (epoch, rest) = number_at(bytes)?;
    let (generation, rest) = number_at(rest)?;
    let (next, rest) = members_at(rest)?;
    Some((Order::Seal(epoch, generation, next), rest))
}

#[tactic(auto, unfolding(crate::specs::Readings::resume_at))]
fn resume_at(bytes: &[u8]) -> Option<(Order, &[u8])>
    ensures { Gives (λ x. (x.0, x.1.now)) result (resume_at bytes.now) }
{
    let (epoch, rest) = number_at(bytes)?;
    let (generation, rest) = number_at(rest)?;
    Some((Order::Resume(epoch, generation), rest))
}

#[tactic(auto, unfolding(crate::specs::Readings::poll_at))]
fn poll_at(bytes: &[u8]) -> Option<(Order, &[u8])>
    ensures { Gives (λ x. (x.0, x.1.now)) result (poll_at bytes.now) }
{
    let (epoch, rest) = number_at(bytes)?;
    Some((Order::Poll(epoch), rest))
}

#[tactic(auto, unfolding(crate::specs::Readings::switch_at))]
fn switch_at(bytes: &[u8]) -> Option<(Order, &[u8])>
    ensures { Gives (λ x. (x.0, x.1.now)) result (switch_at bytes.now) }
{
    let (epoch, rest) = number_at(bytes)?;
    let (generation, rest) = number_at(rest)?;
    let (next, rest) = members_at(rest)?;
    let (count, rest) = number_at(rest)?;
    Some((Order::Switch(epoch, generation, next, count), rest))
}

#[tactic(auto, unfolding(crate::specs::Readings::open_at))]
fn open_at(bytes: &[u8]) -> Option<(Order, &[u8])>
    ensures { Gives (λ x. (x.0, x.1.now)) result (open_at bytes.now) }
{
    let (epoch, rest) = number_at(bytes)?;
    let (generation, rest) = number_at(rest)?;
    let (own, rest) = members_at(rest)?;
    Some((Order::Open(epoch, generation, own), rest))
}

/// The sixteen processes of a generation.
#[tactic(auto, unfolding(crate::specs::Readings::members_at))]
pub fn members_at(bytes: &[u8]) -> Option<(Members, &[u8])>
    ensures { Gives (λ x. (x.0, x.1.now)) result (members_at bytes.now) }
{
    let mut processes = [0; 16];
    let mut rest = bytes;
    for place in 0..16 {
        let (process, after) = number_at(rest)?;
        processes[place] = process;
        rest = after;
    }
    Some((Members { processes }, rest))
}
