//! Tests of schedules that are read from their text.

use crate::making::{Fault, all_hold, holds};
use bytes::Bytes;
use schedules::{ScheduleFault, read_schedule};
use std::alloc::Global;
use std::test::Fail;
use world::Event;

// The number of the first bad line, or 0 if there is none.
fn bad_line(alloc: Global, text: &[u8]) -> Result<u64, Fault> {
    match read_schedule(alloc, text) {
        Ok(_) => Ok(0),
        Err(ScheduleFault::BadLine(number)) => Ok(number),
        Err(ScheduleFault::Memory) => Err(Fault::Memory),
    }
}

// The same of some lines after others.
fn bad_line_behind(alloc: Global, head: &[u8], lines: &[u8]) -> Result<u64, Fault> {
    let mut text = Vec::from_slice(alloc, head)?;
    text.extend_from_slice(lines)?;
    bad_line(alloc, text.as_slice())
}

// Texts that are parted by `%`, and the first bad line of each of them, after others.
type Texts = (&'static [u8], u64);

fn are_bad(alloc: Global, head: &[u8], texts: Texts) -> Result<bool, Fault> {
    let (texts, wanted) = texts;
    for text in texts.split(|byte| *byte == b'%') {
        if bad_line_behind(alloc, head, text)? != wanted {
            return Ok(false);
        }
    }
    Ok(true)
}

// The first of these of which one text has another first bad line, or none.
fn other_texts(alloc: Global, head: &[u8], rows: &[Texts]) -> Result<Option<usize>, Fault> {
    let mut place = 0_usize;
    for row in rows {
        if !are_bad(alloc, head, *row)? {
            return Ok(Some(place));
        }
        place = place.wrapping_add(1);
    }
    Ok(None)
}

// Whether a text is read as n servers, these homes and these events.
fn is_read(
    alloc: Global,
    text: &[u8],
    count: usize,
    homes: &[usize],
    events: &[Event],
) -> Result<bool, Fault> {
    let schedule = read_schedule(alloc, text)?;
    Ok(
        schedule.count == count
            && schedule.homes.as_slice() == homes
            && schedule.events.as_slice() == events,
    )
}

const SET_THEN_GETS: &[u8] =
    b"servers 1\nhomes 0\npiece 0 set a 5 0 3\\r\\nxyz\\r\\ngets a\\r\\n\nbegin 0\nwork 0\nhand 0\nbegin 0\nwork 0\nhand 0\n";

fn reads_set_then_gets(alloc: Global) -> Result<bool, Fault> {
    let input = Bytes::copy_from_slice(alloc, b"set a 5 0 3\r\nxyz\r\ngets a\r\n")?;
    let wanted = [
        Event::Piece(0, input),
        Event::Begin(0),
        Event::Work(0),
        Event::Hand(0),
        Event::Begin(0),
        Event::Work(0),
        Event::Hand(0),
    ];
    let read = is_read(alloc, SET_THEN_GETS, 1, &[0], &wanted);
    drop(wanted);
    read
}

#[test]
fn set_then_gets(rt: HostRuntime) -> Result<(), Fail> {
    holds(reads_set_then_gets(rt.alloc()))
}

const TEXTS_AND_NUMBERS: &[u8] =
    b"#\xff\x00\n\nservers 16\n# homes 17\nhomes 0 15\npiece 999  a\\\\\\r\\n\\x0f\\xa9~\nfill 1 3 \\x00\ndeliver 0 99\nfail 99\ntell 98 1\ndeliver 5 5\n\n#\r\nhand 12";

fn reads_texts_and_numbers(alloc: Global) -> Result<bool, Fault> {
    let text = Bytes::copy_from_slice(alloc, b" a\\\r\n\x0f\xa9~")?;
    let filled = Bytes::copy_from_slice(alloc, b"\x00\x00\x00")?;
    let wanted = [
        Event::Piece(999, text),
        Event::Piece(1, filled),
        Event::Deliver(0, 99),
        Event::Fail(99),
        Event::Tell(98, 1),
        Event::Deliver(5, 5),
        Event::Hand(12),
    ];
    let read = is_read(alloc, TEXTS_AND_NUMBERS, 16, &[0, 15], &wanted);
    drop(wanted);
    read
}

#[test]
fn texts_and_numbers_of_events(rt: HostRuntime) -> Result<(), Fail> {
    holds(reads_texts_and_numbers(rt.alloc()))
}

fn reads_rounds(alloc: Global) -> Result<bool, Fault> {
    let wanted = [
        Event::Begin(1),
        Event::Tell(0, 1),
        Event::Tell(0, 2),
        Event::Tell(1, 0),
        Event::Tell(1, 2),
        Event::Tell(2, 0),
        Event::Tell(2, 1),
        Event::Deliver(0, 1),
        Event::Deliver(0, 2),
        Event::Deliver(1, 0),
        Event::Deliver(1, 2),
        Event::Deliver(2, 0),
        Event::Deliver(2, 1),
        Event::Work(0),
        Event::Work(1),
        Event::Hand(0),
        Event::Hand(1),
        Event::Fail(2),
    ];
    let text = b"servers 3\nhomes 2 0\nbegin 1\nsettle 1\nfail 2\n";
    let read = is_read(alloc, text, 3, &[2, 0], &wanted);
    drop(wanted);
    read
}

#[test]
fn rounds_of_settling(rt: HostRuntime) -> Result<(), Fail> {
    holds(reads_rounds(rt.alloc()))
}

// A schedule with `settle` lines, and how many events it has.
type Settled = (&'static [u8], usize);

static SETTLED: [Settled; 4] = [
    (b"servers 1\nhomes 0\nsettle 1\n", 2),
    (b"servers 1\nhomes 0 0 0\nsettle 500\n", 3_000),
    (b"servers 16\nhomes 0\nsettle 2\nsettle 1", 1_446),
    (b"servers 16\nhomes 0\nsettle 500\n", 241_000),
];

// How many events a schedule has.
fn events_in(alloc: Global, text: &[u8]) -> Result<usize, Fault> {
    let schedule = read_schedule(alloc, text)?;
    Ok(schedule.events.len())
}

fn other_count(alloc: Global, rows: &[Settled]) -> Result<Option<usize>, Fault> {
    let mut place = 0_usize;
    for row in rows {
        let (text, wanted) = *row;
        if events_in(alloc, text)? != wanted {
            return Ok(Some(place));
        }
        place = place.wrapping_add(1);
    }
    Ok(None)
}

#[test]
fn counts_of_settled_events(rt: HostRuntime) -> Result<(), Fail> {
    all_hold(other_count(rt.alloc(), &SETTLED))
}

static HEAD_LINES: [Texts; 5] = [
    (
        b"servers 1\nhomes 0%servers 1\nhomes 0\n%servers 9\nhomes 8 0\n%servers 16\nhomes 15\n",
        0,
    ),
    (
        b"%servers 0\nhomes 0\n%servers 17\nhomes 0\n%servers 99\nhomes 0\n%\
            servers 99999999999999999999999\nhomes 0\n%servers 01\nhomes 0\n%servers 016\nhomes 0\n%\
            servers 1 \nhomes 0\n%servers 1 1\nhomes 0\n%servers  1\nhomes 0\n% servers 1\nhomes 0\n%\
            servers\nhomes 0\n%servers 1\r\nhomes 0\n%servers +1\nhomes 0\n%homes 0\nservers 1\n%\
            settle 1\nservers 1\nhomes 0\n",
        1,
    ),
    (
        b"\n%# no line counts%servers 1%servers 1\n%servers 16\nhomes 16\n%servers 1\nbegin 0\n%\
            servers 1\nsettle 1\nhomes 0\n%servers 1\nservers 1\n%servers 1\nhomes\n%servers 1\nhomes \n%\
            servers 1\nhomes 1\n%servers 3\nhomes 0 3\n%servers 3\nhomes 00\n%servers 3\nhomes 02\n%\
            servers 1\nhomes 0  0\n%servers 1\nhomes 0 \n",
        2,
    ),
    (b"servers 2\nhomes 0\nbegin x\n", 3),
    (b"servers 1\n\n#\n%#\nservers 2\n\nhomes 0 1 0 2\n", 4),
];

#[test]
fn bad_head_lines(rt: HostRuntime) -> Result<(), Fail> {
    all_hold(other_texts(rt.alloc(), b"", &HEAD_LINES))
}

// A schedule's first two lines, with n homes.
fn text_of_homes(alloc: Global, count: usize) -> Result<Vec<u8>, Fault> {
    let mut text = Vec::from_slice(alloc, b"servers 1\nhomes")?;
    for _ in 0..count {
        text.extend_from_slice(b" 0")?;
    }
    Ok(text)
}

// The first bad line of such a schedule.
fn bad_line_of_homes(alloc: Global, count: usize) -> Result<u64, Fault> {
    let text = text_of_homes(alloc, count)?;
    bad_line(alloc, text.as_slice())
}

fn up_to_64_homes(alloc: Global) -> Result<bool, Fault> {
    Ok(
        bad_line_of_homes(alloc, 1)? == 0
            && bad_line_of_homes(alloc, 64)? == 0
            && bad_line_of_homes(alloc, 65)? == 2,
    )
}

#[test]
fn a_schedule_has_up_to_64_homes(rt: HostRuntime) -> Result<(), Fail> {
    holds(up_to_64_homes(rt.alloc()))
}

// The lines of a head, after which others stand.
const HEAD: &[u8] = b"servers 2\nhomes 0\n";

static CONNECTION_LINES: [Texts; 6] = [
    (
        b"begin 0%begin 999%work 999%hand 999%#%piece 999 x%piece 0  %fill 0 1 x%fill 999 2000000 \\n%\
            fill 0 1  ",
        0,
    ),
    (
        b"begin 1000%begin 00%begin 01%begin  1%begin 1 %begin 1\r%begin%begin %begin x%begin -1%\
            begin 18446744073709551616%Begin 1%work 1000%hand 1000%\r% % # no comment%servers 1%homes 0",
        3,
    ),
    (
        b"piece 1000 x%piece 0%piece 0 %piece  0 x%piece x x%piece 0 x\r%piece 0 \x1f%piece 0 \x7f%\
            piece 0 \xc3%piece 0 \\%piece 0 \\q%piece 0 \\x0%piece 0 \\x0A%piece 0 \\x0g%piece 0 \\X0a",
        3,
    ),
    (
        b"fill 0 2000001 x%fill 0 0 x%fill 0 01 x%fill 1000 1 x%fill 0 1 xy%fill 0 1 %fill 0 1",
        3,
    ),
    (b"begin 0\nbegin 1000\nbegin 0\n", 4),
    (b"begin 0\n\n#\nhand 0 0", 6),
];

#[test]
fn bad_lines_of_connections(rt: HostRuntime) -> Result<(), Fail> {
    all_hold(other_texts(rt.alloc(), HEAD, &CONNECTION_LINES))
}

static SERVER_LINES: [Texts; 4] = [
    (
        b"deliver 0 1%deliver 1 1%deliver 99 99%fail 0%fail 99%tell 0 1%tell 99 99%settle 1",
        0,
    ),
    (
        b"deliver 100 0%deliver 0 100%deliver%deliver %deliver 0%deliver 0 %deliver 0 1 %deliver 0 1 2%\
            deliver 0  1%deliver  0 1%deliver 00 1%deliver 0 01%deliver 0 x%deliver 0,1",
        3,
    ),
    (
        b"fail 100%fail%fail %fail 0 %fail 0 1%fail  0%fail 00%tell 100 0%tell 0 100%tell 0%tell 0 1 2%\
            tell 0 01%Tell 0 1%settle 0%settle 501%settle 01%settle 1 %settle 1 1%settle",
        3,
    ),
    (b"settle 1\nsettle x", 4),
];

#[test]
fn bad_lines_of_servers(rt: HostRuntime) -> Result<(), Fail> {
    all_hold(other_texts(rt.alloc(), HEAD, &SERVER_LINES))
}
