//! Reading a source to its end.
ghost use Rattle.std.specs.Prelude.{◌≡◌, ◌<◌, ◌++◌, ◌↔◌, IfOk, OnOk, IsErrOf, true};
ghost use Rattle.ends.specs.declared.reading.ReadFault.TheVariants.{Memory};

use crate::sources::Source;
use std::alloc::{AllocError, Global};
use thiserror::Error;

/// Why a source wasn't read to its end.
#[derive(Clone, Copy, Debug, PartialEq, Eq, Error)]
pub enum ReadFault {
    /// No memory was left.
    #[error("out of memory")]
    Memory,
    /// A read failed.
    #[error("the source can't be read")]
    Read,
}

impl From<AllocError> for ReadFault {
    ghost from_gives = { λ _ e. e ≡ Memory };

    fn from(_e: AllocError) -> ReadFault {
        ReadFault::Memory
    }
}

/// The most bytes of one read.
const PIECE: usize = 4096;

/// All that the source gives until its input ends, read in pieces of 4,096 bytes. It takes time linear in the length.
/// A read that a signal interrupts is a failed one: it isn't tried again.
pub fn read_to_end<R: Source>(alloc: Global, source: &mut R) -> Result<Vec<u8>, ReadFault>
    ensures bytes { IfOk result (λ all. R.given source.new ≡ R.given source.old ++ all.items) }
    ensures ended { OnOk result (R.has_ended source.new ≡ true) }
    ensures none_failed { OnOk result (R.failures source.new ≡ R.failures source.old) }
    ensures failed { IsErrOf result ReadFault.Read ↔ (R.failures source.old < R.failures source.new) }
{
    let mut all = Vec::new(alloc);
    let mut piece = [0; PIECE];
    loop {
        match source.read(&mut piece) {
            Ok(0) => return Ok(all),
            Ok(n) => all.extend_from_slice(&piece[..n])?,
            Err(_) => return Err(ReadFault::Read),
        }
    }
}
