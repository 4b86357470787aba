//! Tests over frames and their bytes.

use crate::making::Fault;
use wire::WireFault;

mod codes;
mod fronts;
mod pieces;
mod ranges;
mod vectors;

impl From<WireFault> for Fault {
    fn from(fault: WireFault) -> Fault {
        match fault {
            WireFault::Memory => Fault::Memory,
            WireFault::Malformed | WireFault::Closed | WireFault::OldFormat => Fault::Refused,
        }
    }
}
