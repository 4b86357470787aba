//! Lines: what the line at the front of a stream asks for.
ghost use Rattle.std.specs.Prelude.{◌≡◌, ◌≤◌, IfOk, IfSome, length, take};
ghost use Rattle.proto.specs.Fronts.{IsSound};
ghost use Rattle.proto.specs.Requests.{asked_at, asked_within, by_line, by_fields, by_word, asked_of};

use crate::commands::{arith_line, delete_line, flush_line, get_line, quit_line};
use crate::fields::{Fields, first_line_end};
use crate::storage::{Block, store_line};
use crate::words::{Word, word_of};
use crate::{Fault, Request};
use std::alloc::{AllocError, Global};

/// The most bytes of a line, its line feed among them (this project's rule).
pub const LINE_LIMIT: usize = 2048;

/// What a line asks for.
#[derive(Drop)]
pub enum Asked {
    /// A request that the line spells alone.
    Whole(Request),
    /// What becomes of the block after the line.
    Behind(Block),
}

/// What the line at the front asks for, and how many bytes it has, if it is whole.
#[tactic(auto, unfolding(crate::specs::Words::line_limit))]
pub fn asked_at(alloc: Global, bytes: &[u8]) -> Result<Option<(Asked, usize)>, AllocError>
    ensures value { IfOk result (λ found. found ≡ asked_at bytes.now) }
    ensures within { IfOk result (λ found. IfSome found (λ line. line.1 ≤ length bytes.now)) }
    ensures sound { IfOk result (λ found. IfSome found (λ line. IsSound line.0)) }
{
    asked_within(alloc, bytes, LINE_LIMIT)
}

fn asked_within(
    alloc: Global,
    bytes: &[u8],
    most: usize,
) -> Result<Option<(Asked, usize)>, AllocError>
    requires { most ≤ 2048 }
    ensures value { IfOk result (λ found. found ≡ asked_within most bytes.now) }
    ensures within { IfOk result (λ found. IfSome found (λ line. line.1 ≤ length bytes.now)) }
    ensures sound { IfOk result (λ found. IfSome found (λ line. IsSound line.0)) }
{
    match first_line_end(beginning(bytes, most)) {
        Some(at) => Ok(Some((by_line(alloc, &bytes[..at])?, at + 1))),
        None if bytes.len() >= most => {
            Ok(Some((Asked::Whole(Request::Bad(Fault::LineTooLong)), most)))
        }
        None => Ok(None),
    }
}

/// The first bytes, `most` at most.
pub fn beginning(bytes: &[u8], most: usize) -> &[u8]
    ensures bytes { result.now ≡ take most bytes.entry.now }
    ensures short { length result.now ≤ length bytes.entry.now }
{
    if bytes.len() < most {
        bytes
    } else {
        &bytes[..most]
    }
}

fn by_line(alloc: Global, line: &[u8]) -> Result<Asked, AllocError>
    ensures value { IfOk result (λ asked. asked ≡ by_line line.now) }
    ensures sound { IfOk result IsSound }
{
    match line.split_last() {
        Some((b'\r', text)) => by_fields(alloc, Fields::of(text)),
        _ => Ok(Asked::Whole(Request::Bad(Fault::Command))),
    }
}

fn by_fields(alloc: Global, mut fields: Fields<'_>) -> Result<Asked, AllocError>
    ensures value { IfOk result (λ asked. asked ≡ by_fields fields.entry) }
    ensures sound { IfOk result IsSound }
{
    match fields.next() {
        Some(field) => by_word(alloc, word_of(field), fields),
        None => Ok(Asked::Whole(Request::Bad(Fault::Command))),
    }
}

fn by_word(alloc: Global, word: Option<Word>, fields: Fields<'_>) -> Result<Asked, AllocError>
    ensures value { IfOk result (λ asked. asked ≡ by_word word fields.entry) }
    ensures sound { IfOk result IsSound }
{
    let Some(word) = word else {
        return Ok(Asked::Whole(Request::Bad(Fault::Command)));
    };
    match asked_of(alloc, word, fields)? {
        Some(asked) => Ok(asked),
        None => Ok(Asked::Whole(Request::Bad(Fault::Format))),
    }
}

// What the fields after a command word ask for, if they fit it.
fn asked_of(alloc: Global, word: Word, fields: Fields<'_>) -> Result<Option<Asked>, AllocError>
    ensures value { IfOk result (λ asked. asked ≡ asked_of word fields.entry) }
    ensures sound { IfOk result (λ asked. IfSome asked IsSound) }
{
    let request = match word {
        Word::Get => get_line(alloc, false, fields),
        Word::Gets => get_line(alloc, true, fields),
        Word::Store(storing) => return Ok(store_line(alloc, storing, fields)?.map(Asked::Behind)),
        Word::Incr => arith_line(alloc, true, fields),
        Word::Decr => arith_line(alloc, false, fields),
        Word::Delete => delete_line(alloc, fields),
        Word::FlushAll => Ok(flush_line(fields)),
        Word::Quit => Ok(quit_line(fields)),
    };
    Ok(request?.map(Asked::Whole))
}
