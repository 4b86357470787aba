//! Connections that are served over memory, to a plain table: their input is cut anywhere, and the table may have no
//! room.
ghost use Rattle.std.specs.Prelude.{◌≡◌, [], OnOk};
ghost use Rattle.serving.specs.Wanted.{IsAsking};

use crate::ending::holds;
use serving::{Connection, End, Wants, stores};
use std::alloc::{AllocError, Global};
use std::io;
use std::io::{Read, Write};
use std::test::Fail;
use table::{Op, Reply, Table, Target};

// How many bytes are read or written at once.
const FEW: usize = 7;

// What a writer has room for.
const MANY: usize = 4096;

// A reader that gives these bytes, n at once. It gives nothing beyond the cut before it has given all that comes
// before that.
#[derive(Drop)]
struct CutReader<'a> {
    bytes: &'a [u8],
    most: usize,
    cut: usize,
}

impl Read for CutReader<'_> {
    fn read(&mut self, buf: &mut [u8]) -> io::Result<usize> {
        let most = if self.cut == 0 {
            self.most
        } else {
            self.most.min(self.cut)
        };
        let n = self.bytes.len().min(buf.len()).min(most);
        buf[..n].copy_from_slice(&self.bytes[..n]);
        self.bytes = &self.bytes[n..];
        self.cut = self.cut.saturating_sub(n);
        Ok(n)
    }
}

// A writer that takes at most n bytes at once.
#[derive(Drop)]
struct Writer {
    held: Vec<u8>,
    most: usize,
}

impl Write for Writer {
    fn write(&mut self, buf: &[u8]) -> io::Result<usize> {
        let n = buf.len().min(self.most);
        self.held.extend_from_slice(&buf[..n])?;
        Ok(n)
    }

    fn flush(&mut self) -> io::Result<()> {
        Ok(())
    }
}

// How many bytes were read and written, and how many calls were made and refused.
#[derive(Clone, Copy)]
struct Counts {
    read: usize,
    written: usize,
    calls: usize,
    refused: usize,
}

// What is beside a connection: a reader, with room for what it gives at once, a writer, and a plain table, which has
// room for a call that stores while it has fewer than this many items.
#[derive(Drop)]
struct Beside<'a> {
    reader: CutReader<'a>,
    room: Vec<u8>,
    writer: Writer,
    table: Table,
    items: usize,
    most_items: usize,
    counts: Counts,
}

// How many items there are after a reply to a call on a new key.
fn items_after(items: usize, reply: &Reply) -> usize {
    match reply {
        Reply::Stored => items.saturating_add(1),
        Reply::Deleted => items.saturating_sub(1),
        _ => items,
    }
}

// Has a call answered; or refuses it, if it stores and the table has no room.
fn answer(
    connection: &mut Connection,
    beside: &mut Beside<'_>,
    target: &Target,
    op: &Op,
) -> Result<(), AllocError>
    requires asking { IsAsking target.now op.now connection.old }
    ensures idle { OnOk result (connection.new.waiting ≡ []) }
{
    if stores(op) && beside.items >= beside.most_items {
        beside.counts.refused = beside.counts.refused.saturating_add(1);
        return connection.refuse();
    }
    match beside.table.call(target, op) {
        Ok(reply) => {
            beside.items = items_after(beside.items, &reply);
            beside.counts.calls = beside.counts.calls.saturating_add(1);
            let answered = connection.answer(&reply);
            drop(reply);
            answered
        }
        Err(_) => Err(AllocError),
    }
}

// Reads once, and tells how many bytes came. Refused for nothing but memory.
fn read(beside: &mut Beside<'_>) -> Result<usize, AllocError> {
    match beside.reader.read(beside.room.as_mut_slice()) {
        Ok(n) => {
            beside.counts.read = beside.counts.read.saturating_add(n);
            Ok(n)
        }
        Err(_) => Err(AllocError),
    }
}

// Writes once, and tells how many bytes were taken. Refused for nothing but memory.
fn write(beside: &mut Beside<'_>, bytes: &[u8]) -> Result<usize, AllocError> {
    match beside.writer.write(bytes) {
        Ok(n) => {
            beside.counts.written = beside.counts.written.saturating_add(n);
            Ok(n)
        }
        Err(_) => Err(AllocError),
    }
}

// Does what the connection wants next, and tells whether it is at its end.
fn go(connection: &mut Connection, beside: &mut Beside<'_>) -> Result<Option<End>, AllocError>
    requires idle { connection.old.waiting ≡ [] }
    ensures idle { OnOk result (connection.new.waiting ≡ []) }
{
    match connection.next()? {
        Wants::Call(target, op) => {
            let answered = answer(connection, beside, &target, &op);
            drop(target);
            drop(op);
            answered?;
        }
        Wants::Write => {
            let taken = write(beside, connection.output())?;
            let n = connection.output().len().min(taken);
            connection.written(n);
        }
        Wants::Read => {
            let n = read(beside)?;
            if n == 0 {
                connection.input_ended();
            } else {
                connection.feed(beside.room.as_slice().get(..n).unwrap_or_default())?;
            }
        }
        Wants::End(end) => return Ok(Some(end)),
    }
    Ok(None)
}

// How many steps a connection has to come to its end.
const STEPS: usize = 1000;

// Has a connection do what it wants, and tells how it comes to its end, if it does.
fn driven(connection: &mut Connection, beside: &mut Beside<'_>) -> Result<Option<End>, AllocError>
    requires idle { connection.old.waiting ≡ [] }
{
    for _ in 0..STEPS {
        if let Some(end) = go(connection, beside)? {
            return Ok(Some(end));
        }
    }
    Ok(None)
}

// How a new connection comes to its end, if it does.
fn ended(alloc: Global, beside: &mut Beside<'_>) -> Result<Option<End>, AllocError> {
    let mut connection = Connection::new(alloc);
    let end = driven(&mut connection, beside);
    drop(connection);
    end
}

// What a connection left: how it came to its end, what was written, and what was done.
#[derive(Drop)]
struct Left {
    end: Option<End>,
    output: Vec<u8>,
    counts: Counts,
}

// What is beside a connection that has neither read nor written.
fn beside_of(
    alloc: Global,
    reader: CutReader<'_>,
    writer: Writer,
    room: Vec<u8>,
    most_items: usize,
) -> Beside<'_> {
    Beside {
        reader,
        room,
        writer,
        table: Table::new(alloc),
        items: 0,
        most_items,
        counts: Counts {
            read: 0,
            written: 0,
            calls: 0,
            refused: 0,
        },
    }
}

// How a connection comes to its end, and what it leaves beside it.
fn left_by(alloc: Global, beside: Beside<'_>) -> Result<Left, AllocError> {
    let mut beside = beside;
    match ended(alloc, &mut beside) {
        Ok(end) => Ok(Left {
            end,
            counts: beside.counts,
            output: beside.writer.held,
        }),
        Err(fault) => {
            drop(beside);
            Err(fault)
        }
    }
}

// A connection over this reader and a writer with room for some bytes, which takes a few at once. Refused if
// memory is out: a plain table refuses a call for nothing else.
fn served_over(
    alloc: Global,
    reader: CutReader<'_>,
    writes: usize,
    most: usize,
    most_items: usize,
) -> Result<Left, AllocError> {
    let room = Vec::from_elem(alloc, 0u8, reader.bytes.len().min(reader.most))?;
    let held = Vec::with_capacity(alloc, writes)?;
    let writer = Writer { held, most };
    left_by(alloc, beside_of(alloc, reader, writer, room, most_items))
}

/// A connection of which this many bytes are read and written at once, to a table with room for this many items; how it
/// ends, what it writes, and how many calls are made and refused.
#[derive(Clone, Copy)]
pub(crate) struct Served<'a> {
    pub(crate) requests: &'a [u8],
    pub(crate) reads: usize,
    pub(crate) writes: usize,
    pub(crate) items: usize,
    pub(crate) end: End,
    pub(crate) replies: &'a [u8],
    pub(crate) calls: usize,
    pub(crate) refused: usize,
}

/// Whether a connection is served so.
pub(crate) fn is_served(alloc: Global, served: Served<'_>) -> Result<bool, AllocError> {
    let reader = CutReader {
        bytes: served.requests,
        most: served.reads,
        cut: 0,
    };
    let left = served_over(alloc, reader, MANY, served.writes, served.items)?;
    Ok(came_to(&left, served.end, served.replies) && has_made(&left, served.calls, served.refused))
}

// Whether a connection came to this end, and left this output, all of which was counted.
fn came_to(left: &Left, end: End, output: &[u8]) -> bool {
    left.end == Some(end) && left.output.as_slice() == output && left.counts.written == output.len()
}

// Whether this many calls were made, and that many refused.
fn has_made(left: &Left, calls: usize, refused: usize) -> bool {
    left.counts.calls == calls && left.counts.refused == refused
}

// A table with room for one item: until that is deleted, what would store is refused, silently if it is silent, and
// changes nothing. All else goes on.
static WITHOUT_ROOM: Served = Served {
    requests: b"set a 0 0 1\r\n1\r\nset b 0 0 1\r\n2\r\nset a 0 0 1 noreply\r\n3\r\nappend a 0 0 1\r\n4\r\nincr a 1\r\ngets a b\r\ndelete a\r\nadd b 0 0 1\r\n5\r\nget a b\r\nreplace b 0 0 1\r\n6\r\nprepend b 0 0 1\r\n7\r\ncas b 0 0 1 4\r\n8\r\nquit\r\n",
    reads: FEW,
    writes: FEW,
    items: 1,
    end: End::Closed,
    replies: b"STORED\r\nSERVER_ERROR out of memory storing object\r\nSERVER_ERROR out of memory storing object\r\n2\r\nVALUE a 0 1 2\r\n2\r\nEND\r\nDELETED\r\nSTORED\r\nVALUE b 0 1\r\n5\r\nEND\r\nSERVER_ERROR out of memory storing object\r\nSERVER_ERROR out of memory storing object\r\nSERVER_ERROR out of memory storing object\r\n",
    calls: 8,
    refused: 6,
};

#[test]
fn without_room_what_stores_is_refused(rt: HostRuntime) -> Result<(), Fail> {
    holds(is_served(rt.alloc(), WITHOUT_ROOM))
}

// Requests of which some want no reply, and two have a block that doesn't end as it should; and their replies.
const SILENT: &[u8] =
    b"set a 0 0 3 noreply\r\nabc\r\nappend a 0 0 2 noreply\r\nde\r\nget a\r\nset b 0 0 3\r\nabcd\r\nset b 0 0 2 noreply\r\nwxyz\r\nincr a 1 noreply\r\nincr a 1\r\ndelete a noreply\r\ngets a b\r\ncas a 0 0 1 9 noreply\r\n1\r\nflush_all noreply\r\nquit\r\n";

const SILENT_REPLIES: &[u8] =
    b"VALUE a 0 5\r\nabcde\r\nEND\r\nCLIENT_ERROR bad data chunk\r\nERROR\r\nCLIENT_ERROR bad data chunk\r\nERROR\r\nCLIENT_ERROR cannot increment or decrement non-numeric value\r\nEND\r\n";

// A large block, with what comes before and after it in a request that stores it and one that reads it, and in their
// replies.
const LARGE: usize = 65_600;

const LARGE_LINE: &[u8] = b"set c 7 0 65600 noreply\r\n";

const LARGE_READ: &[u8] = b"\r\nget c\r\nquit\r\n";

const LARGE_SHOWN: &[u8] = b"VALUE c 7 65600\r\n";

const LARGE_END: &[u8] = b"\r\nEND\r\n";

// A block of n bytes, with what comes before and after it.
fn around_block(
    alloc: Global,
    before: &[u8],
    length: usize,
    after: &[u8],
) -> Result<Vec<u8>, AllocError> {
    let block = Vec::from_elem(alloc, b'x', length)?;
    let mut bytes = Vec::new(alloc);
    bytes.extend_from_slice(before)?;
    bytes.extend_from_slice(block.as_slice())?;
    bytes.extend_from_slice(after)?;
    Ok(bytes)
}

// Requests with their replies, and how many calls they are.
#[derive(Clone, Copy)]
struct Exchange<'a> {
    requests: &'a [u8],
    replies: &'a [u8],
    calls: usize,
}

// A connection to which these bytes come as two pieces, or as one if they are cut at 0, and whose output is taken as it
// is.
fn served_in_two(
    alloc: Global,
    bytes: &[u8],
    cut: usize,
    writes: usize,
) -> Result<Left, AllocError> {
    let reader = CutReader {
        bytes,
        most: usize::MAX,
        cut,
    };
    served_over(alloc, reader, writes, usize::MAX, usize::MAX)
}

// Whether the first n bytes alone have a beginning of the replies, and all of them, cut there, have the replies.
fn is_same_if_cut(alloc: Global, exchange: Exchange<'_>, n: usize) -> Result<bool, AllocError> {
    let (requests, replies) = (exchange.requests, exchange.replies);
    let front = requests.get(..n).unwrap_or_default();
    let begun = served_in_two(alloc, front, 0, replies.len())?;
    let whole = served_in_two(alloc, requests, n, replies.len())?;
    Ok(
        begun.end == Some(End::Input)
            && replies.starts_with(begun.output.as_slice())
            && came_to(&whole, End::Closed, replies)
            && has_made(&whole, exchange.calls, 0),
    )
}

// Whether that holds of n cuts, each one step after the one before it.
fn is_same_at_each(
    alloc: Global,
    exchange: Exchange<'_>,
    first: usize,
    cuts: usize,
    step: usize,
) -> Result<bool, AllocError> {
    let mut cut = first;
    for _ in 0..cuts {
        if !is_same_if_cut(alloc, exchange, cut)? {
            return Ok(false);
        }
        cut = cut.wrapping_add(step);
    }
    Ok(true)
}

// Wherever the input is cut.
#[test]
fn many_cuts_of_silent_requests_and_bad_blocks(rt: HostRuntime) -> Result<(), Fail> {
    let exchange = Exchange {
        requests: SILENT,
        replies: SILENT_REPLIES,
        calls: 10,
    };
    holds(is_same_at_each(rt.alloc(), exchange, 0, SILENT.len(), 1))
}

// Whether that holds of cuts before and after a large block, or a little in it, and at some places far in it.
fn is_same_around_block(alloc: Global, exchange: Exchange<'_>) -> Result<bool, AllocError> {
    let (front, back) = (LARGE_LINE.len(), LARGE_READ.len());
    let last = exchange.requests.len().wrapping_sub(back);
    for (first, cuts, step) in [
        (0, front.wrapping_add(3), 1),
        (front, 8, 8192),
        (last.wrapping_sub(3), 3, 1),
        (last, back, 1),
    ] {
        if !is_same_at_each(alloc, exchange, first, cuts, step)? {
            return Ok(false);
        }
    }
    Ok(true)
}

fn is_same_for_large(alloc: Global) -> Result<bool, AllocError> {
    let requests = around_block(alloc, LARGE_LINE, LARGE, LARGE_READ)?;
    let replies = around_block(alloc, LARGE_SHOWN, LARGE, LARGE_END)?;
    let exchange = Exchange {
        requests: requests.as_slice(),
        replies: replies.as_slice(),
        calls: 2,
    };
    is_same_around_block(alloc, exchange)
}

#[test]
fn many_cuts_of_a_large_block(rt: HostRuntime) -> Result<(), Fail> {
    holds(is_same_for_large(rt.alloc()))
}
