//! Loads: which requests are asked, and how many.

use itoa::Buffer;
use std::alloc::{AllocError, Global};

/// How many requests a round has.
pub const ROUND: u8 = 64;

/// Which requests a round has.
#[derive(Clone, Copy, Debug)]
pub enum Kind {
    Sets,
    /// Gets of what was set before the first round.
    Gets,
}

/// Rounds of requests of one kind.
#[derive(Clone, Copy, Debug)]
pub struct Load {
    pub kind: Kind,
    /// How many bytes of data a value has.
    pub size: u32,
    /// How many rounds follow the first one, which sets all keys.
    pub rounds: u32,
}

/// The bytes of a round of sets, each on a key of its own.
pub fn sets(alloc: Global, size: u32) -> Result<Vec<u8>, AllocError> {
    let data = vec![in alloc; b'x'; size as usize]?;
    let mut bytes = Vec::new(alloc);
    for number in 0..ROUND {
        bytes.extend_from_slice(b"set ")?;
        bytes.push(b'0' + number)?;
        bytes.extend_from_slice(b" 0 0 ")?;
        bytes.extend_from_slice(Buffer::new().format(size).as_bytes())?;
        bytes.extend_from_slice(b"\r\n")?;
        bytes.extend_from_slice(data.as_slice())?;
        bytes.extend_from_slice(b"\r\n")?;
    }
    Ok(bytes)
}

/// The bytes of a round of gets of these keys.
pub fn gets(alloc: Global) -> Result<Vec<u8>, AllocError> {
    let mut bytes = Vec::new(alloc);
    for number in 0..ROUND {
        bytes.extend_from_slice(b"get ")?;
        bytes.push(b'0' + number)?;
        bytes.extend_from_slice(b"\r\n")?;
    }
    Ok(bytes)
}
