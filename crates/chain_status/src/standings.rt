//! Whether a chain serves.
ghost use Rattle.std.specs.Prelude.{◌≡◌};
ghost use Rattle.chain_status.specs.Faults as faults;

use crate::faults::Fault;
use serde::Serialize;

/// Whether a chain serves.
#[derive(Clone, Copy, PartialEq, Eq, Serialize)]
#[serde(rename_all = "snake_case")]
pub enum Standing {
    /// It is whole, and serves.
    Whole,
    /// It serves with fewer servers.
    Fewer,
    /// Updates can't go on, or not at each server.
    Stopped,
}

impl Standing {
    /// The exit status that says so: 0, 1 or 2.
    pub fn exit_status(self) -> u8
        ensures { result ≡ faults.exit_status self }
    {
        match self {
            Standing::Whole => 0,
            Standing::Fewer => 1,
            Standing::Stopped => 2,
        }
    }
}

/// How a chain with these faults stands: as the worst of them says.
pub fn standing_of(found: &[Fault]) -> Standing
    ensures { result ≡ faults.standing_of found.now }
{
    let mut standing = Standing::Whole;
    for fault in found {
        standing = worse(standing, fault.standing());
    }
    standing
}

// The worse one of two.
fn worse(one: Standing, other: Standing) -> Standing
    ensures { result ≡ faults.worse one other }
{
    match (one, other) {
        (Standing::Stopped, _) | (_, Standing::Stopped) => Standing::Stopped,
        (Standing::Fewer, _) | (_, Standing::Fewer) => Standing::Fewer,
        (Standing::Whole, Standing::Whole) => Standing::Whole,
    }
}
