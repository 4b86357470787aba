//! Bytes that their copies share: the bytes of keys, and the data of items.
ghost use Rattle.std.specs.Prelude.{◌≡◌, ◌≤◌, length, take, IfOk, nat_eq};
ghost use Rattle.std.specs.Cmp.{partial_equiv_from_equiv};
ghost use Rattle.std.specs.Cmp.Lexicographic.{nat_list_eq_equiv, pointwise};
ghost use Rattle.table.specs.SharedBytes.{bytes_in};

use std::alloc::{AllocError, Global};
use std::marker::Model;
use std::sync::Arc;

// The most bytes that stand beside the count of holders: so such a block takes 40 bytes.
const FEW: usize = 30;

/// Bytes that never change. A clone shares them, and copies none. Each place that holds some takes a pointer, 8 bytes.
/// Up to 30 bytes stand in one block with the count of their holders; more have a second block. Contracts see the
/// bytes.
#[derive(Debug, Drop)]
pub struct SharedBytes {
    block: Arc<Block>,
}

// Few bytes, with how many they are and zeros after them, or more.
#[derive(Debug, Drop)]
enum Block {
    Few(u8, [u8; FEW]),
    More(Vec<u8>),
}

impl Model for SharedBytes {
    ghost use Rattle.std.specs.Prelude.{List, ℕ};
    ghost use Rattle.std.specs.Arc.{arc_value};
    ghost use Rattle.table.specs.SharedBytes.{bytes_in};

    ghost Value = { List ℕ };

    ghost view = { λ shared. bytes_in (arc_value shared.block) };
}

impl SharedBytes {
    /// These bytes, copied once. Refused only if memory is out.
    pub fn copy_from_slice(alloc: Global, bytes: &[u8]) -> Result<SharedBytes, AllocError>
        ensures { IfOk result (λ shared. shared ≡ bytes.now) }
    {
        if bytes.len() <= FEW {
            return SharedBytes::new(alloc, Block::few(bytes));
        }
        let bytes = Vec::from_slice(alloc, bytes)?;
        SharedBytes::new(alloc, Block::More(bytes))
    }

    /// The bytes of a vector; more than 30 aren't copied. Refused only if memory is out.
    pub fn from_vec(bytes: Vec<u8>) -> Result<SharedBytes, AllocError>
        ensures { IfOk result (λ shared. shared ≡ bytes.items) }
    {
        let alloc = *bytes.allocator();
        if bytes.len() <= FEW {
            return SharedBytes::new(alloc, Block::few(bytes.as_slice()));
        }
        SharedBytes::new(alloc, Block::More(bytes))
    }

    fn new(alloc: Global, block: Block) -> Result<SharedBytes, AllocError>
        ensures { IfOk result (λ shared. shared ≡ bytes_in block) }
    {
        let block = Arc::new(alloc, block)?;
        Ok(SharedBytes { block })
    }

    /// The bytes.
    pub fn as_slice(&self) -> &[u8]
        ensures { result.now ≡ self.now }
    {
        self.block.bytes()
    }

    /// How many bytes there are.
    pub fn len(&self) -> usize
        ensures { result ≡ length self.now }
    {
        self.as_slice().len()
    }
}

impl Block {
    fn few(bytes: &[u8]) -> Block
        requires { length bytes.now ≤ 30 }
        ensures { bytes_in result ≡ bytes.now }
    {
        let mut places = [0; FEW];
        places[..bytes.len()].copy_from_slice(bytes);
        Block::Few(bytes.len() as u8, places)
    }

    fn bytes(&self) -> &[u8]
        ensures { result.now ≡ bytes_in self.now }
    {
        match self {
            Block::Few(count, places) => first(*count, places),
            Block::More(bytes) => bytes.as_slice(),
        }
    }
}

// The first bytes, up to this count of them.
fn first(count: u8, bytes: &[u8]) -> &[u8]
    ensures { result.now ≡ take count bytes.now }
{
    match bytes.get(..usize::from(count)) {
        Some(first) => first,
        None => bytes,
    }
}

impl Clone for SharedBytes {
    ghost is_clone = { λ shared copy. copy ≡ shared };

    fn clone(&self) -> Result<SharedBytes, AllocError> {
        let block = Arc::try_clone(&self.block)?;
        Ok(SharedBytes { block })
    }
}

impl PartialEq for SharedBytes {
    ghost eq = { pointwise nat_eq };

    ghost laws = { partial_equiv_from_equiv nat_list_eq_equiv };

    fn eq(&self, other: &SharedBytes) -> bool {
        self.as_slice() == other.as_slice()
    }
}

impl Eq for SharedBytes {
    ghost laws = { nat_list_eq_equiv };
}
