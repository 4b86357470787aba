//! Fields of frames: each is read from the front, and judged as soon as all its bytes are there.
ghost use Rattle.std.specs.Prelude.{◌≡◌, ◌≤◌, ◌<◌, length, IfOk};
ghost use Rattle.std.specs.Int.{w16, w32, w64};
ghost use Rattle.table.specs.Items.{limit};
ghost use Rattle.table.specs.Keys.{IsKey};
ghost use Rattle.wire.specs.Grammar.{any, below, positive};
ghost use Rattle.wire.specs.Fronts.{Gives, block_at, byte_at, bytes_at, key_at, number_at, text_at};

use node::SERVERS;
use table::{Key, LIMIT, are_key_bytes};

/// Why no value is read from the front.
#[derive(Clone, Copy)]
pub enum Stop {
    /// This many bytes more have to come, before anything else can be told.
    Short(usize),
    /// A field is out of its range.
    Malformed,
    /// The format's byte is an older server's.
    Old,
}

/// A byte, and the bytes after it.
pub fn byte_at(bytes: &[u8]) -> Result<(u8, &[u8]), Stop>
    ensures { Gives (λ x. (x.0, x.1.now)) result (byte_at any bytes.now) }
{
    match bytes {
        [] => Err(Stop::Short(1)),
        [byte, rest @ ..] => Ok((*byte, rest)),
    }
}

/// A server's id.
pub fn server_at(bytes: &[u8]) -> Result<(u8, &[u8]), Stop>
    ensures gives { Gives (λ x. (x.0, x.1.now)) result (byte_at (below 16) bytes.now) }
    ensures server { IfOk result (λ x. x.0 < 16) }
{
    let (id, rest) = byte_at(bytes)?;
    if id >= SERVERS {
        return Err(Stop::Malformed);
    }
    Ok((id, rest))
}

/// A number of two bytes.
pub fn u16_at(bytes: &[u8]) -> Result<(u16, &[u8]), Stop>
    ensures { Gives (λ x. (x.0, x.1.now)) result (number_at w16 any bytes.now) }
{
    if bytes.len() < 2 {
        return Err(Stop::Short(2 - bytes.len()));
    }
    let (front, rest) = bytes.split_at(2);
    Ok((u16::from_be_bytes([front[0], front[1]]), rest))
}

/// A number of four bytes.
pub fn u32_at(bytes: &[u8]) -> Result<(u32, &[u8]), Stop>
    ensures { Gives (λ x. (x.0, x.1.now)) result (number_at w32 any bytes.now) }
{
    if bytes.len() < 4 {
        return Err(Stop::Short(4 - bytes.len()));
    }
    let (front, rest) = bytes.split_at(4);
    let number = u32::from_be_bytes([front[0], front[1], front[2], front[3]]);
    Ok((number, rest))
}

/// A number of eight bytes.
pub fn u64_at(bytes: &[u8]) -> Result<(u64, &[u8]), Stop>
    ensures { Gives (λ x. (x.0, x.1.now)) result (number_at w64 any bytes.now) }
{
    if bytes.len() < 8 {
        return Err(Stop::Short(8 - bytes.len()));
    }
    let (front, rest) = bytes.split_at(8);
    let number = u64::from_be_bytes([
        front[0], front[1], front[2], front[3], front[4], front[5], front[6], front[7],
    ]);
    Ok((number, rest))
}

/// A number of eight bytes, from 1 on.
pub fn positive_at(bytes: &[u8]) -> Result<(u64, &[u8]), Stop>
    ensures gives { Gives (λ x. (x.0, x.1.now)) result (number_at w64 positive bytes.now) }
    ensures positive { IfOk result (λ x. 1 ≤ x.0) }
{
    let (number, rest) = u64_at(bytes)?;
    if number < 1 {
        return Err(Stop::Malformed);
    }
    Ok((number, rest))
}

/// A key's bytes: a length, 1 to 250, and as many bytes. A byte that no key has is met as soon as it has come.
#[tactic(auto, unfolding(crate::specs::Fronts::key_at))]
pub fn key_at(bytes: &[u8]) -> Result<(&[u8], &[u8]), Stop>
    ensures gives { Gives (λ x. (x.0.now, x.1.now)) result (key_at bytes.now) }
    ensures key { IfOk result (λ x. IsKey x.0.now) }
{
    let (count, rest) = byte_at(bytes)?;
    let count = usize::from(count);
    if count < 1 || count > Key::MAX {
        return Err(Stop::Malformed);
    }
    text_at(count, rest)
}

/// A key's bytes, if its length has been read.
pub fn text_at(count: usize, bytes: &[u8]) -> Result<(&[u8], &[u8]), Stop>
    requires { (1 ≤ count) × (count ≤ 250) }
    ensures gives { Gives (λ x. (x.0.now, x.1.now)) result (text_at count bytes.now) }
    ensures key { IfOk result (λ x. IsKey x.0.now) }
{
    if bytes.len() < count {
        return Err(if are_key_bytes(bytes) {
            Stop::Short(1)
        } else {
            Stop::Malformed
        });
    }
    let (text, rest) = bytes.split_at(count);
    if !are_key_bytes(text) {
        return Err(Stop::Malformed);
    }
    Ok((text, rest))
}

/// An item's data: a length, at most the limit, and as many bytes. No byte of them is looked at.
#[tactic(auto, unfolding(crate::specs::Fronts::block_at))]
pub fn block_at(bytes: &[u8]) -> Result<(&[u8], &[u8]), Stop>
    ensures gives { Gives (λ x. (x.0.now, x.1.now)) result (block_at bytes.now) }
    ensures within_limit { IfOk result (λ x. length x.0.now ≤ limit) }
{
    let (count, rest) = u32_at(bytes)?;
    let count = count as usize;
    if count > LIMIT {
        return Err(Stop::Malformed);
    }
    bytes_at(count, rest)
}

fn bytes_at(count: usize, bytes: &[u8]) -> Result<(&[u8], &[u8]), Stop>
    ensures gives { Gives (λ x. (x.0.now, x.1.now)) result (bytes_at count bytes.now) }
    ensures exact { IfOk result (λ x. length x.0.now ≡ count) }
{
    if bytes.len() < count {
        return Err(Stop::Short(count - bytes.len()));
    }
    Ok(bytes.split_at(count))
}
