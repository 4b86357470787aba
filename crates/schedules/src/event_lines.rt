//! The lines of a schedule after its head: an event each, or rounds of events.
ghost use Rattle.std.specs.Prelude.{◌≡◌, ◌++◌, IfOk, OnOk};
ghost use Rattle.schedules.specs.EventLines.{event_line, events_in, word_line, piece_line, fill_line, fill_fields};
ghost use Rattle.schedules.specs.EventLines.{call_line, two_servers, server_number, connection_number, text_of};

use crate::escapes::{one_byte, unescape};
use crate::numbers::number_in;
use crate::settling::push_rounds;
use crate::splits::split_once;
use bytes::Bytes;
use std::alloc::{AllocError, Global};
use world::Event;

/// The numbers of connections in an event are below this.
const CONNECTION_NUMBERS: usize = 1000;

/// The numbers of servers in an event are below this.
const SERVER_NUMBERS: usize = 100;

/// The most bytes of a `fill` line's piece.
const MOST_FILLED: usize = 2_000_000;

/// The most rounds of a `settle` line.
const MOST_ROUNDS: usize = 500;

/// What a line after the head says.
#[derive(Drop)]
pub enum EventLine {
    /// An event.
    One(Event),
    /// This many rounds of settling.
    Settle(usize),
}

/// What a line says, if it is one of events.
pub fn event_line(alloc: Global, line: &[u8]) -> Result<Option<EventLine>, AllocError>
    ensures { IfOk result (λ said. said ≡ event_line line.now) }
{
    let Some((word, rest)) = split_once(b' ', line) else {
        return Ok(None);
    };
    if word == b"settle".as_slice() {
        Ok(number_in(1, MOST_ROUNDS + 1, rest).map(EventLine::Settle))
    } else {
        Ok(word_line(alloc, word, rest)?.map(EventLine::One))
    }
}

/// Adds the events that a line stands for, in a chain of `count` servers with `connections` connections.
pub fn push_events(
    alloc: Global,
    events: &mut Vec<Event>,
    said: EventLine,
    count: usize,
    connections: usize,
) -> Result<(), AllocError>
    ensures { OnOk result (events.new.items ≡ events.old.items ++ events_in count connections said) }
{
    match said {
        EventLine::One(event) => Ok(events.push(event)?),
        EventLine::Settle(rounds) => push_rounds(alloc, events, rounds, count, connections),
    }
}

fn word_line(alloc: Global, word: &[u8], rest: &[u8]) -> Result<Option<Event>, AllocError>
    ensures { IfOk result (λ event. event ≡ word_line word.now rest.now) }
{
    if word == b"piece".as_slice() {
        piece_line(alloc, rest)
    } else if word == b"fill".as_slice() {
        fill_line(alloc, rest)
    } else if word == b"deliver".as_slice() {
        Ok(two_servers(rest).map(|(i, j)| Event::Deliver(i, j)))
    } else if word == b"fail".as_slice() {
        Ok(server_number(rest).map(Event::Fail))
    } else if word == b"tell".as_slice() {
        Ok(two_servers(rest).map(|(i, j)| Event::Tell(i, j)))
    } else {
        Ok(call_line(word, rest))
    }
}

fn piece_line(alloc: Global, rest: &[u8]) -> Result<Option<Event>, AllocError>
    ensures { IfOk result (λ event. event ≡ piece_line rest.now) }
{
    let Some((number, text)) = split_once(b' ', rest) else {
        return Ok(None);
    };
    let Some(connection) = connection_number(number) else {
        return Ok(None);
    };
    match text_of(alloc, text)? {
        Some(bytes) => Ok(Some(Event::Piece(connection, bytes))),
        None => Ok(None),
    }
}

fn text_of(alloc: Global, text: &[u8]) -> Result<Option<Bytes>, AllocError>
    ensures { IfOk result (λ bytes. bytes ≡ text_of text.now) }
{
    if text.is_empty() {
        return Ok(None);
    }
    match unescape(alloc, text)? {
        Some(bytes) => Ok(Some(Bytes::from_vec(bytes)?)),
        None => Ok(None),
    }
}

fn fill_line(alloc: Global, rest: &[u8]) -> Result<Option<Event>, AllocError>
    ensures { IfOk result (λ event. event ≡ fill_line rest.now) }
{
    let Some((connection, count, byte)) = fill_fields(rest) else {
        return Ok(None);
    };
    let bytes = vec![in alloc; byte; count]?;
    Ok(Some(Event::Piece(connection, Bytes::from_vec(bytes)?)))
}

fn fill_fields(rest: &[u8]) -> Option<(usize, usize, u8)>
    ensures { result ≡ fill_fields rest.now }
{
    let (number, rest) = split_once(b' ', rest)?;
    let (count, text) = split_once(b' ', rest)?;
    let connection = connection_number(number)?;
    let count = number_in(1, MOST_FILLED + 1, count)?;
    Some((connection, count, one_byte(text)?))
}

fn call_line(word: &[u8], rest: &[u8]) -> Option<Event>
    ensures { result ≡ call_line word.now rest.now }
{
    let connection = connection_number(rest)?;
    if word == b"begin".as_slice() {
        Some(Event::Begin(connection))
    } else if word == b"work".as_slice() {
        Some(Event::Work(connection))
    } else if word == b"hand".as_slice() {
        Some(Event::Hand(connection))
    } else {
        None
    }
}

fn two_servers(rest: &[u8]) -> Option<(usize, usize)>
    ensures { result ≡ two_servers rest.now }
{
    let (first, second) = split_once(b' ', rest)?;
    Some((server_number(first)?, server_number(second)?))
}

fn server_number(field: &[u8]) -> Option<usize>
    ensures { result ≡ server_number field.now }
{
    number_in(0, SERVER_NUMBERS, field)
}

fn connection_number(field: &[u8]) -> Option<usize>
    ensures { result ≡ connection_number field.now }
{
    number_in(0, CONNECTION_NUMBERS, field)
}
