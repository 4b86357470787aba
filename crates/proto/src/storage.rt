//! Storage lines, and the blocks that they announce.
ghost use Rattle.std.specs.Prelude.{◌≡◌, IfOk, IfSome, MatchOption, None, Some};
ghost use Rattle.proto.specs.declared.lines.Asked.TheVariants.{Behind};
ghost use Rattle.proto.specs.Fronts.{IsSound};
ghost use Rattle.proto.specs.Requests.{verb_of, storage_line, block_of, store_line};

use crate::Fault;
use crate::fields::{Fields, expiry_of, key_of, number_32, silence_of};
use crate::words::Storing;
use std::alloc::{AllocError, Global};
use table::{Key, LIMIT, number};

/// A data block: `size` bytes, two more after them, and what becomes of it.
#[derive(Drop)]
pub struct Block {
    pub size: usize,
    pub fate: Fate,
}

/// What becomes of a data block.
#[derive(Drop)]
pub enum Fate {
    /// It is put at the key by this verb, and the reply is silent or not.
    Put(Key, Verb, bool),
    /// It is passed over, for this fault.
    Refuse(Fault),
}

/// What a storage command makes of its data block, with its flags, and for `cas` the unique that is asked for.
/// An append and a prepend leave the item's flags.
#[derive(Clone, Copy)]
pub enum Verb {
    Set(u32),
    Add(u32),
    Replace(u32),
    Append,
    Prepend,
    Cas(u32, u64),
}

/// What the fields of a storage line say after its key.
#[derive(Clone, Copy)]
pub struct StorageLine {
    pub verb: Verb,
    /// Whether an expiry time is asked for.
    pub expires: bool,
    pub size: u32,
    pub silent: bool,
}

// The verb of a storage word, with the flags of its line; a `cas` takes the next field as its unique.
fn verb_of(storing: Storing, flags: u32, fields: &mut Fields<'_>) -> Option<Verb>
    ensures { MatchOption result (verb_of storing flags fields.old ≡ None)
        (λ verb. verb_of storing flags fields.old ≡ Some (verb, fields.new)) }
{
    match storing {
        Storing::Set => Some(Verb::Set(flags)),
        Storing::Add => Some(Verb::Add(flags)),
        Storing::Replace => Some(Verb::Replace(flags)),
        Storing::Append => Some(Verb::Append),
        Storing::Prepend => Some(Verb::Prepend),
        Storing::Cas => Some(Verb::Cas(flags, number(fields.next()?)?)),
    }
}

// What a storage line says after its key.
fn storage_line(storing: Storing, mut fields: Fields<'_>) -> Option<StorageLine>
    ensures { result ≡ storage_line storing fields.entry }
{
    let (Some(flags), Some(exptime), Some(size)) = (fields.next(), fields.next(), fields.next())
    else {
        return None;
    };
    let (Some(flags), Some(expires), Some(size)) = (
        number_32(flags),
        expiry_of(exptime),
        number_32(size),
    ) else {
        return None;
    };
    let verb = verb_of(storing, flags, &mut fields)?;
    let silent = silence_of(fields)?;
    Some(StorageLine {
        verb,
        expires,
        size,
        silent,
    })
}

fn block_of(key: Key, line: StorageLine) -> Block
    ensures value { result ≡ block_of key line }
    ensures sound { IsSound (Behind result) }
{
    let size = line.size as usize;
    let fate = if size > LIMIT {
        Fate::Refuse(Fault::TooLarge)
    } else if line.expires {
        Fate::Refuse(Fault::Expiry)
    } else {
        Fate::Put(key, line.verb, line.silent)
    };
    Block { size, fate }
}

/// What the fields of a storage line ask for, if they fit.
pub fn store_line(
    alloc: Global,
    storing: Storing,
    mut fields: Fields<'_>,
) -> Result<Option<Block>, AllocError>
    ensures value { IfOk result (λ block. block ≡ store_line storing fields.entry) }
    ensures sound { IfOk result (λ block. IfSome block (λ b. IsSound (Behind b))) }
{
    let Some(key) = fields.next() else {
        return Ok(None);
    };
    let Some(line) = storage_line(storing, fields) else {
        return Ok(None);
    };
    let Some(key) = key_of(alloc, key)? else {
        return Ok(None);
    };
    Ok(Some(block_of(key, line)))
}
