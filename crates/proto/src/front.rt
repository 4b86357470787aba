//! The request at the front of a stream.
ghost use Rattle.std.specs.Prelude.{◌≡◌, ◌+◌, ◌-◌, ◌≤◌, ◌++◌, IfOk, IfSome, None, Some, [], ◌∷◌, false, if◌then◌else◌};
ghost use Rattle.std.specs.Prelude.{length, nat_lt};
ghost use Rattle.table.specs.Items.{limit};
ghost use Rattle.proto.specs.Fronts.{IsFront, IsKeyUpdate, IsKnown, IsWhole, IsWithin, finished, found_at, found_of};
ghost use Rattle.proto.specs.Requests.{asked_at};
ghost use Rattle.proto.specs.Verbs.{op_of};
ghost use Rattle.proto.specs.declared.lines.Asked.TheVariants.{Behind};
ghost use Rattle.proto.specs.declared.storage.Fate.TheVariants.{Put};
ghost use Rattle.proto.specs.declared.front.Found.TheVariants.{Request as Requested};
ghost use Rattle.proto.specs.declared.requests.Request.TheVariants.{Bad, Get};

use crate::fields::first_return;
use crate::lines::{Asked, asked_at, beginning};
use crate::skipped_blocks::SkippedBlock;
use crate::storage::{Block, Fate, Verb};
use crate::{Fault, Request};
use std::alloc::{AllocError, Global};
use table::{Key, Op, SharedBytes};

/// What stands at the front of a stream.
#[derive(Drop)]
pub enum Found {
    /// A request, and how many bytes spell it.
    Request(Request, usize),
    /// A refused block that isn't whole.
    Refused(SkippedBlock),
    /// Neither.
    Nothing,
}

/// A block that is to be put, and how many bytes the line before it has:
/// what was found out about the front before all of the block had come.
#[derive(Drop)]
pub struct Pending {
    pub key: Key,
    pub verb: Verb,
    pub silent: bool,
    pub size: usize,
    pub line: usize,
}

/// What stands at the front. It reads a line once, and then waits for the block after it by counting.
pub fn front(
    alloc: Global,
    pending: &mut Option<Pending>,
    bytes: &[u8],
) -> Result<Found, AllocError>
    requires known { IsKnown pending.old bytes.now }
    ensures known { IsKnown pending.new bytes.now }
    ensures value { IfOk result (λ found. found ≡ found_at bytes.now) }
    ensures front { IfOk result (λ found. IsFront found bytes.now) }
{
    if let Some(announced) = pending.take() {
        return announced_at(alloc, pending, announced, bytes);
    }
    let Some((asked, line)) = asked_at(alloc, bytes)? else {
        return Ok(Found::Nothing);
    };
    match asked {
        Asked::Whole(request) => Ok(Found::Request(request, line)),
        Asked::Behind(block) => behind(alloc, pending, block, line, bytes),
    }
}

/// The key of a `get` of one key, if such a line stands at the front. If not, nothing is said of what stands there.
pub fn lone_key(alloc: Global, bytes: &[u8]) -> Result<Option<Key>, AllocError>
    ensures found { IfOk result (λ found. IfSome found
        (λ key. found_at bytes.now ≡ Requested (Get (key ∷ []) false) (length key + 6))) }
    ensures within { IfOk result (λ found. IfSome found (λ key. length key + 6 ≤ length bytes.now)) }
{
    let Some(rest) = after(b"get ", bytes) else {
        return Ok(None);
    };
    let Some(at) = first_return(beginning(rest, Key::MAX + 1)) else {
        return Ok(None);
    };
    let (text, end) = rest.split_at(at);
    match after(b"\r\n", end) {
        Some(_) => Key::new(alloc, text),
        None => Ok(None),
    }
}

/// The bytes after these, if these stand at the front.
pub fn after<'a>(first: &[u8], bytes: &'a [u8]) -> Option<&'a [u8]>
    ensures { IfSome result (λ rest. bytes.now ≡ first.now ++ rest.now) }
{
    let rest = bytes.strip_prefix(first)?;
    Some(rest)
}

// By the block that a line of `line` bytes announces.
fn behind(
    alloc: Global,
    pending: &mut Option<Pending>,
    block: Block,
    line: usize,
    bytes: &[u8],
) -> Result<Found, AllocError>
    requires fresh { pending.old ≡ None }
    requires asked { asked_at bytes.now ≡ Some (Behind block, line) }
    requires line { line ≤ length bytes.now }
    requires sound { IsWithin block.fate block.size }
    ensures known { IsKnown pending.new bytes.now }
    ensures value { IfOk result (λ found. found ≡ found_at bytes.now) }
    ensures front { IfOk result (λ found. IsFront found bytes.now) }
{
    let Block { size, fate } = block;
    match fate {
        Fate::Refuse(fault) => Ok(refused(fault, line + size + 2, bytes.len())),
        Fate::Put(key, verb, silent) => {
            let announced = Pending {
                key,
                verb,
                silent,
                size,
                line,
            };
            announced_at(alloc, pending, announced, bytes)
        }
    }
}

// A refused block that ends after `end` bytes, if `come` bytes have come.
fn refused(fault: Fault, end: usize, come: usize) -> Found
    ensures { result ≡ found_of (if nat_lt come end then None else Some (Bad fault, end))
        (Some (record { fault = fault; left = end - come })) }
{
    if come < end {
        Found::Refused(SkippedBlock {
            fault,
            left: end - come,
        })
    } else {
        Found::Request(Request::Bad(fault), end)
    }
}

// A block that is to be put: it is kept in mind until all of it has come.
fn announced_at(
    alloc: Global,
    pending: &mut Option<Pending>,
    announced: Pending,
    bytes: &[u8],
) -> Result<Found, AllocError>
    requires fresh { pending.old ≡ None }
    requires known { IsKnown (Some announced) bytes.now }
    ensures known { IsKnown pending.new bytes.now }
    ensures value { IfOk result (λ found. found ≡ found_at bytes.now) }
    ensures front { IfOk result (λ found. IsFront found bytes.now) }
{
    if bytes.len() - announced.line < announced.size + 2 {
        drop(pending.replace(announced));
        return Ok(Found::Nothing);
    }
    let end = announced.line + announced.size;
    let block = &bytes[announced.line..end];
    let request = finished(alloc, announced, block, &bytes[end..end + 2])?;
    Ok(Found::Request(request, end + 2))
}

// The request of a whole block: its data gets a block of its own, so that an item keeps no buffer alive.
fn finished(
    alloc: Global,
    announced: Pending,
    block: &[u8],
    ends: &[u8],
) -> Result<Request, AllocError>
    requires { length block.now ≤ limit }
    ensures value { IfOk result
        (λ request. request ≡ finished (Put announced.key announced.verb announced.silent) block.now ends.now) }
    ensures whole { IfOk result IsWhole }
{
    let Pending {
        key,
        verb,
        silent,
        ..
    } = announced;
    if ends != b"\r\n".as_slice() {
        drop(key);
        return Ok(Request::Bad(Fault::DataChunk));
    }
    match SharedBytes::copy_from_slice(alloc, block) {
        Ok(data) => Ok(Request::Store(key, op_of(verb, data), silent)),
        Err(fault) => {
            drop(key);
            Err(fault)
        }
    }
}

// The operation of a storage command on this data.
fn op_of(verb: Verb, block: SharedBytes) -> Op
    requires { length block ≤ limit }
    ensures value { result ≡ op_of verb block }
    ensures update { IsKeyUpdate result }
{
    match verb {
        Verb::Set(flags) => Op::Set(flags, block),
        Verb::Add(flags) => Op::Add(flags, block),
        Verb::Replace(flags) => Op::Replace(flags, block),
        Verb::Append => Op::Append(block),
        Verb::Prepend => Op::Prepend(block),
        Verb::Cas(flags, unique) => Op::Cas(flags, block, unique),
    }
}
