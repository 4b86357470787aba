//! The status of a chain: a look at it, what is wrong, and how it stands.
ghost use Rattle.std.specs.Prelude.{◌≡◌, IfOk};
ghost use Rattle.chain_status.specs.Checks as checks;
ghost use Rattle.chain_status.specs.Faults as faults;

use crate::checks::faults_of;
use crate::faults::Fault;
use crate::looks::ChainLook;
use crate::standings::{Standing, standing_of};
use std::alloc::{AllocError, Global};

/// The status of a chain by a look at it, and by an earlier one.
#[derive(Drop)]
pub struct ChainStatus<'a> {
    pub(crate) earlier: &'a ChainLook,
    pub(crate) look: &'a ChainLook,
    pub(crate) addresses: &'a [String],
    pub(crate) faults: Vec<Fault>,
    pub(crate) standing: Standing,
}

impl<'a> ChainStatus<'a> {
    /// The status by a look, and by an earlier one: a look of no server, if there is none. The servers have these
    /// addresses, by their ids. Fails only if memory runs out.
    pub fn of(
        alloc: Global,
        earlier: &'a ChainLook,
        look: &'a ChainLook,
        addresses: &'a [String],
    ) -> Result<ChainStatus<'a>, AllocError>
        ensures faults { IfOk result (λ status. status.faults.items ≡ checks.faults_of earlier.now look.now) }
        ensures standing { IfOk result (λ status. status.standing
            ≡ faults.standing_of (checks.faults_of earlier.now look.now)) }
    {
        let faults = faults_of(alloc, earlier, look)?;
        let standing = standing_of(faults.as_slice());
        Ok(ChainStatus {
            earlier,
            look,
            addresses,
            faults,
            standing,
        })
    }

    /// What is wrong.
    pub fn faults(&self) -> &[Fault]
        ensures { result.now ≡ self.now.faults.items }
    {
        self.faults.as_slice()
    }

    /// How the chain stands.
    pub fn standing(&self) -> Standing
        ensures { result ≡ self.now.standing }
    {
        self.standing
    }

    /// The address of server i, or `-`.
    pub(crate) fn address(&self, i: u8) -> &str {
        match self.addresses.get(usize::from(i)) {
            Some(address) => address.as_str(),
            None => "-",
        }
    }
}
