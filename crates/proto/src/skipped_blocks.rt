//! A refused block that is passed over.
ghost use Rattle.std.specs.Prelude.{◌≡◌};
ghost use Rattle.proto.specs.Sessions.{kept, passed};

use crate::Fault;

/// A refused block, of which no byte is kept.
#[derive(Clone, Copy)]
pub struct SkippedBlock {
    /// The fault that stands in its request's place.
    pub fault: Fault,
    /// How many bytes of it have still to come, including the two after its data.
    pub left: usize,
}

/// What of a piece is kept: what lies after the refused block.
pub fn kept(skipped_block: Option<SkippedBlock>, piece: &[u8]) -> &[u8]
    ensures { result.now ≡ kept skipped_block piece.entry.now }
{
    match skipped_block {
        Some(SkippedBlock { left, .. }) => piece.get(left..).unwrap_or_default(),
        None => piece,
    }
}

/// The refused block, of which this piece has come.
pub fn passed(skipped_block: Option<SkippedBlock>, piece: &[u8]) -> Option<SkippedBlock>
    ensures { result ≡ passed skipped_block piece.now }
{
    let SkippedBlock { fault, left } = skipped_block?;
    Some(SkippedBlock {
        fault,
        left: left.saturating_sub(piece.len()),
    })
}
