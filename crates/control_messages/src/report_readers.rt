//! What members report and mark, read from the bytes after its kind.
ghost use Rattle.control_messages.specs.Readings.{Gives, acceptance_at, marker_at, phase_at, phase_of_at, progress_at};
ghost use Rattle.control_messages.specs.Readings.{report_at, standing_at};

use crate::order_readers::members_at;
use crate::readers::{flag_at, number_at, u16_at};
use seals::{Marker, Numbers};
use successions::{Acceptance, Phase, Report, Standing};

/// A member's report.
#[tactic(auto, unfolding(crate::specs::Readings::report_at))]
pub fn report_at(bytes: &[u8]) -> Option<(Report, &[u8])>
    ensures { Gives (λ x. (x.0, x.1.now)) result (report_at bytes.now) }
{
    let (number, rest) = number_at(bytes)?;
    let (epoch, rest) = number_at(rest)?;
    let (generation, rest) = number_at(rest)?;
    let (phase, rest) = phase_at(rest)?;
    let (standing, rest) = standing_at(rest)?;
    let report = Report {
        number,
        epoch,
        generation,
        phase,
        standing,
    };
    Some((report, rest))
}

#[tactic(auto, unfolding(crate::specs::Readings::phase_at))]
fn phase_at(bytes: &[u8]) -> Option<(Phase, &[u8])>
    ensures { Gives (λ x. (x.0, x.1.now)) result (phase_at bytes.now) }
{
    let (code, rest) = number_at(bytes)?;
    phase_of_at(code, rest)
}

// What a member is at, after its code.
#[tactic(auto, unfolding(crate::specs::Readings::phase_of_at))]
fn phase_of_at(code: u64, bytes: &[u8]) -> Option<(Phase, &[u8])>
    ensures { Gives (λ x. (x.0, x.1.now)) result (phase_of_at code bytes.now) }
{
    match code {
        0 => Some((Phase::Started, bytes)),
        1 => Some((Phase::Serving, bytes)),
        2 => {
            let (acceptance, rest) = acceptance_at(bytes)?;
            Some((Phase::Sealed(acceptance), rest))
        }
        3 => {
            let (acceptance, rest) = acceptance_at(bytes)?;
            Some((Phase::Switched(acceptance), rest))
        }
        _ => None,
    }
}

#[tactic(auto, unfolding(crate::specs::Readings::acceptance_at))]
fn acceptance_at(bytes: &[u8]) -> Option<(Acceptance, &[u8])>
    ensures { Gives (λ x. (x.0, x.1.now)) result (acceptance_at bytes.now) }
{
    let (epoch, rest) = number_at(bytes)?;
    let (next, rest) = members_at(rest)?;
    Some((Acceptance { epoch, next }, rest))
}

#[tactic(auto, unfolding(crate::specs::Readings::standing_at))]
fn standing_at(bytes: &[u8]) -> Option<(Standing, &[u8])>
    ensures { Gives (λ x. (x.0, x.1.now)) result (standing_at bytes.now) }
{
    let (view, rest) = u16_at(bytes)?;
    let (last, rest) = number_at(rest)?;
    let (committed, rest) = number_at(rest)?;
    let (idle, rest) = flag_at(rest)?;
    let standing = Standing {
        view,
        last,
        committed,
        idle,
    };
    Some((standing, rest))
}

/// A marker.
#[tactic(auto, unfolding(crate::specs::Readings::marker_at))]
pub fn marker_at(bytes: &[u8]) -> Option<(Marker, &[u8])>
    ensures { Gives (λ x. (x.0, x.1.now)) result (marker_at bytes.now) }
{
    let (generation, rest) = number_at(bytes)?;
    let (epoch, rest) = number_at(rest)?;
    let (numbers, rest) = progress_at(rest)?;
    let marker = Marker {
        generation,
        epoch,
        numbers,
    };
    Some((marker, rest))
}

// How far a member is.
#[tactic(auto, unfolding(crate::specs::Readings::progress_at))]
fn progress_at(bytes: &[u8]) -> Option<(Numbers, &[u8])>
    ensures { Gives (λ x. (x.0, x.1.now)) result (progress_at bytes.now) }
{
    let (view, rest) = u16_at(bytes)?;
    let (last, rest) = number_at(rest)?;
    let (committed, rest) = number_at(rest)?;
    let numbers = Numbers {
        view,
        last,
        committed,
    };
    Some((numbers, rest))
}
