//! A plain `set` that stands whole at a front: the update that is met most, so it gets a short way.
ghost use Rattle.std.specs.Prelude.{◌≤◌, IfOk, IfSome, length};
ghost use Rattle.proto.specs.LoneSets.{IsAtFront, IsNumberBefore, IsPlainSet, ending};

use crate::fields::{first_space, number_32};
use crate::front::after;
use crate::lines::beginning;
use std::alloc::{AllocError, Global};
use table::{Key, LIMIT, SharedBytes};

/// A `set`, and how many bytes spell it.
#[derive(Drop)]
pub struct LoneSet {
    pub key: Key,
    pub flags: u32,
    pub silent: bool,
    pub block: SharedBytes,
    pub end: usize,
}

// A `set` as it stands in the bytes, and the bytes after it. Its key may be no valid one.
#[derive(Drop)]
struct PlainSet<'a> {
    key: &'a [u8],
    flags: u32,
    silent: bool,
    block: &'a [u8],
    rest: &'a [u8],
}

/// The `set` at the front, if all of it has come and it is a plain one: it stores a block within the limit, and has the
/// expiry time 0 and numbers of at most ten digits. If not, nothing is said of what stands there.
pub fn lone_set(alloc: Global, bytes: &[u8]) -> Result<Option<LoneSet>, AllocError>
    ensures { IfOk result (λ found. IfSome found (λ set. IsAtFront set bytes.now)) }
{
    let Some(set) = plain_set(bytes) else {
        return Ok(None);
    };
    let Some(key) = Key::new(alloc, set.key)? else {
        return Ok(None);
    };
    let end = bytes.len() - set.rest.len();
    match SharedBytes::copy_from_slice(alloc, set.block) {
        Ok(block) => Ok(Some(LoneSet {
            key,
            flags: set.flags,
            silent: set.silent,
            block,
            end,
        })),
        Err(fault) => {
            drop(key);
            Err(fault)
        }
    }
}

// Such a `set`, in one pass over its line.
fn plain_set(bytes: &[u8]) -> Option<PlainSet<'_>>
    ensures { IfSome result (λ set. IsPlainSet bytes.now set.key.now set.flags set.silent set.block.now set.rest.now) }
{
    let line = after(b"set ", bytes)?;
    let at = first_space(beginning(line, Key::MAX + 1))?;
    let (key, numbers) = line.split_at(at);
    let (flags, sized) = number_before(b" 0 ", after(b" ", numbers)?)?;
    let (size, silent, come) = size_before(sized)?;
    let (block, ends) = come.split_at_checked(size as usize)?;
    let rest = after(b"\r\n", ends)?;
    if block.len() > LIMIT {
        return None;
    }
    Some(PlainSet {
        key,
        flags,
        silent,
        block,
        rest,
    })
}

// The size at the end of a `set`'s line, whether `noreply` stands after it, and the bytes after the line.
fn size_before(bytes: &[u8]) -> Option<(u32, bool, &[u8])>
    ensures { IfSome result (λ found. IsNumberBefore (ending found.1) bytes.now found.0 found.2.now) }
{
    if let Some((size, rest)) = number_before(b"\r\n", bytes) {
        return Some((size, false, rest));
    }
    let (size, rest) = number_before(b" noreply\r\n", bytes)?;
    Some((size, true, rest))
}

// The number at the front, if this text stands after it, and the bytes after that.
fn number_before<'a>(text: &[u8], bytes: &'a [u8]) -> Option<(u32, &'a [u8])>
    ensures { IfSome result (λ found. IsNumberBefore text.now bytes.now found.0 found.1.now) }
{
    let (field, ends) = bytes.split_at(digits_at(bytes));
    let number = number_32(field)?;
    let rest = after(text, ends)?;
    Some((number, rest))
}

// 2^32 - 1 has ten digits.
const MOST_DIGITS: usize = 10;

// How many digits stand at the front, as far as a number may have them.
fn digits_at(bytes: &[u8]) -> usize
    ensures within { result ≤ length bytes.now }
    ensures few { result ≤ 10 }
{
    let most = bytes.len().min(MOST_DIGITS);
    for i in 0..most {
        if !bytes[i].is_ascii_digit() {
            return i;
        }
    }
    most
}
