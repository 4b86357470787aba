//! The lines of events, as a schedule has them.
ghost use Rattle.std.specs.Prelude.{◌≡◌, ◌++◌, None, Some, OnOk};
ghost use Rattle.traces.specs.EventLines.{are_all, event_line, is_long, pair_line, piece_line, piece_shown, repeated};

use crate::texts::Text;
use std::alloc::AllocError;
use world::Event;

/// Pieces of more bytes than this, all alike, are shown by `fill`.
const FILLED: usize = 64;

/// The line of an event, without its end.
pub fn put_event(text: &mut Text, event: &Event) -> Result<(), AllocError>
    ensures { OnOk result (text.new ≡ text.old ++ event_line event.now) }
{
    match event {
        Event::Piece(c, bytes) => put_piece(text, *c, bytes.as_slice()),
        Event::Begin(c) => text.numbered(b"begin ", *c),
        Event::Work(c) => text.numbered(b"work ", *c),
        Event::Deliver(i, j) => put_pair(text, b"deliver ", *i, *j),
        Event::Fail(i) => text.numbered(b"fail ", *i),
        Event::Tell(i, j) => put_pair(text, b"tell ", *i, *j),
        Event::Hand(c) => text.numbered(b"hand ", *c),
    }
}

fn put_pair(text: &mut Text, word: &[u8], i: usize, j: usize) -> Result<(), AllocError>
    ensures { OnOk result (text.new ≡ text.old ++ pair_line word.now i j) }
{
    text.numbered(word, i)?;
    text.numbered(b" ", j)
}

fn put_piece(text: &mut Text, c: usize, bytes: &[u8]) -> Result<(), AllocError>
    ensures { OnOk result (text.new ≡ text.old ++ piece_line c bytes.now) }
{
    match repeated(bytes) {
        Some(b) => put_filled(text, c, bytes, b),
        None => put_plain(text, c, bytes),
    }
}

fn put_filled(text: &mut Text, c: usize, bytes: &[u8], b: u8) -> Result<(), AllocError>
    ensures { OnOk result (text.new ≡ text.old ++ piece_shown c bytes.now (Some b)) }
{
    text.numbered(b"fill ", c)?;
    text.numbered(b" ", bytes.len())?;
    text.spelled(b" ", &[b])
}

fn put_plain(text: &mut Text, c: usize, bytes: &[u8]) -> Result<(), AllocError>
    ensures { OnOk result (text.new ≡ text.old ++ piece_shown c bytes.now None) }
{
    text.numbered(b"piece ", c)?;
    text.spelled(b" ", bytes)
}

// The byte of which a long piece has many, and no other.
fn repeated(bytes: &[u8]) -> Option<u8>
    ensures { result ≡ repeated bytes.now }
{
    let (first, _) = bytes.split_first()?;
    if is_long(bytes) && are_all(*first, bytes) {
        Some(*first)
    } else {
        None
    }
}

#[tactic(auto, unfolding(crate::specs::EventLines::is_long))]
fn is_long(bytes: &[u8]) -> bool
    ensures { result ≡ is_long bytes.now }
{
    bytes.len() > FILLED
}

#[tactic(auto, unfolding(crate::specs::EventLines::are_all))]
fn are_all(byte: u8, bytes: &[u8]) -> bool
    ensures { result ≡ are_all byte bytes.now }
{
    bytes.iter().all(|b| *b == byte)
}
