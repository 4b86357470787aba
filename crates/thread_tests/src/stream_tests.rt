//! Streams that are served over memory by a plain table: their ends, and the failures of their two sides.

use crate::ending::holds;
use ends::{Failures, TrackedReader, TrackedWriter};
use serving::{CallFault, Caller, End, ServeFault, serve_stream};
use std::alloc::{AllocError, Global};
use std::io;
use std::io::{Error, ErrorKind, Read, Write};
use std::sync::Wait;
use std::test::Fail;
use table::{LIMIT, Op, Reply, Table, Target};

// A reader that gives these bytes, some at once, and fails once it has given as many as are left.
#[derive(Drop)]
struct Reader<'a> {
    bytes: &'a [u8],
    most: usize,
    left: usize,
}

impl Read for Reader<'_> {
    fn read(&mut self, buf: &mut [u8]) -> io::Result<usize> {
        if self.left == 0 {
            return Err(Error::from(ErrorKind::Other));
        }
        let n = self
            .bytes
            .len()
            .min(buf.len())
            .min(self.most)
            .min(self.left);
        buf[..n].copy_from_slice(&self.bytes[..n]);
        self.bytes = &self.bytes[n..];
        self.left = self.left.saturating_sub(n);
        Ok(n)
    }
}

// A writer that takes bytes, and fails once it has taken as many as are left.
#[derive(Drop)]
struct Writer {
    held: Vec<u8>,
    left: usize,
}

impl Write for Writer {
    fn write(&mut self, buf: &[u8]) -> io::Result<usize> {
        if self.left == 0 {
            return Err(Error::from(ErrorKind::Other));
        }
        let n = buf.len().min(self.left);
        self.held.extend_from_slice(&buf[..n])?;
        self.left = self.left.saturating_sub(n);
        Ok(n)
    }

    fn flush(&mut self) -> io::Result<()> {
        Ok(())
    }
}

// A plain table that answers calls.
#[derive(Drop)]
struct TableCaller {
    table: Table,
    failures: Failures,
}

impl Caller for TableCaller {
    ghost use Rattle.std.specs.Prelude.{◌≡◌};
    ghost use Rattle.table.specs.Plain.{apply};

    ghost answers = { λ before call reply after. (reply ≡ (apply before.table call.target call.op).0) ×
        (after.table ≡ (apply before.table call.target call.op).1) };

    ghost failures = { λ caller. caller.failures };

    fn call<R: Wait>(&mut self, _rt: &R, target: &Target, op: &Op) -> Result<Reply, CallFault> {
        match self.table.call(target, op) {
            Ok(reply) => Ok(reply),
            Err(_) => {
                self.failures.rise();
                Err(CallFault)
            }
        }
    }
}

// An input, how much of it is read at once, after how much of it the reader fails and after how much output the writer.
#[derive(Clone, Copy)]
struct Sides<'a> {
    input: &'a [u8],
    most: usize,
    reads: usize,
    writes: usize,
}

// Whether serving these ends so, with this output. A plain table refuses a call for nothing but memory.
fn comes_to(
    rt: &impl Wait,
    alloc: Global,
    sides: Sides<'_>,
    end: Result<End, ServeFault>,
    output: &[u8],
) -> Result<bool, AllocError> {
    let held = Vec::with_capacity(alloc, output.len())?;
    let mut source = TrackedReader::new(Reader {
        bytes: sides.input,
        most: sides.most,
        left: sides.reads,
    });
    let mut sink = TrackedWriter::new(Writer {
        held,
        left: sides.writes,
    });
    let mut caller = TableCaller {
        table: Table::new(alloc),
        failures: Failures::new(),
    };
    let found = serve_stream(rt, alloc, &mut source, &mut sink, &mut caller);
    if matches!(found, Err(ServeFault::Memory | ServeFault::Call)) {
        return Err(AllocError);
    }
    Ok(found == end && sink.inner.held.as_slice() == output)
}

// An input of which each side takes all.
fn all_of(input: &[u8]) -> Sides<'_> {
    Sides {
        input,
        most: usize::MAX,
        reads: usize::MAX,
        writes: usize::MAX,
    }
}

#[test]
fn input_ends_in_mid_request(rt: HostRuntime) -> Result<(), Fail> {
    let sides = all_of(b"get a\r\nget b");
    holds(comes_to(&rt, rt.alloc(), sides, Ok(End::Input), b"END\r\n"))
}

#[test]
fn writer_fails(rt: HostRuntime) -> Result<(), Fail> {
    let sides = Sides {
        writes: 3,
        ..all_of(b"set a 5 0 3\r\nxyz\r\ngets a\r\n")
    };
    holds(comes_to(&rt, rt.alloc(), sides, Err(ServeFault::Write), b"STO"))
}

#[test]
fn reader_fails(rt: HostRuntime) -> Result<(), Fail> {
    let sides = Sides {
        reads: 0,
        ..all_of(b"get a\r\n")
    };
    holds(comes_to(&rt, rt.alloc(), sides, Err(ServeFault::Read), b""))
}

// Requests of which some want no reply, one has an expiry, and one reads several keys; and their replies.
const SILENT: &[u8] = b"set a 0 0 1 noreply\r\n1\r\nset a 0 7 1 noreply\r\n2\r\nget a b a\r\n";

const SILENT_REPLIES: &[u8] =
    b"CLIENT_ERROR expiry is not supported\r\nVALUE a 0 1\r\n1\r\nVALUE a 0 1\r\n1\r\nEND\r\n";

// How many bytes of requests have the first line as their replies, and how long that is.
const EXPIRY_AT: usize = 48;

const EXPIRY_REPLY: usize = 38;

// Whether an input that ends after n bytes, and one whose next read fails there, leave the replies to what was read.
fn is_cut_in_input(rt: &impl Wait, alloc: Global, n: usize) -> Result<bool, AllocError> {
    let front = SILENT.get(..n).unwrap_or_default();
    let many = if n < EXPIRY_AT { 0 } else { EXPIRY_REPLY };
    let output = SILENT_REPLIES.get(..many).unwrap_or_default();
    let fails = Sides {
        reads: n,
        ..all_of(SILENT)
    };
    Ok(
        comes_to(rt, alloc, all_of(front), Ok(End::Input), output)?
            && comes_to(rt, alloc, fails, Err(ServeFault::Read), output)?,
    )
}

// Whether a write that fails after n bytes of output leaves just these.
fn is_cut_in_output(rt: &impl Wait, alloc: Global, n: usize) -> Result<bool, AllocError> {
    let fails = Sides {
        writes: n,
        ..all_of(SILENT)
    };
    let output = SILENT_REPLIES.get(..n).unwrap_or_default();
    comes_to(rt, alloc, fails, Err(ServeFault::Write), output)
}

// Whether that holds after any number of bytes.
fn is_cut_anywhere(rt: &impl Wait, alloc: Global) -> Result<bool, AllocError> {
    for n in 0..SILENT.len() {
        if !is_cut_in_input(rt, alloc, n)? {
            return Ok(false);
        }
    }
    for n in 0..SILENT_REPLIES.len() {
        if !is_cut_in_output(rt, alloc, n)? {
            return Ok(false);
        }
    }
    Ok(true)
}

#[test]
fn noreply_and_multi_get_cut_anywhere(rt: HostRuntime) -> Result<(), Fail> {
    holds(is_cut_anywhere(&rt, rt.alloc()))
}

// Sets of the largest block and of one byte more, an append to the first, and a read of the second.
fn large_sets(alloc: Global) -> Result<Vec<u8>, AllocError> {
    let block = Vec::from_elem(alloc, b'x', LIMIT)?;
    let mut bytes = Vec::new(alloc);
    bytes.extend_from_slice(b"set a 0 0 1048576\r\n")?;
    bytes.extend_from_slice(block.as_slice())?;
    bytes.extend_from_slice(b"\r\nset b 0 0 1048577\r\n")?;
    bytes.extend_from_slice(block.as_slice())?;
    bytes.extend_from_slice(b"x\r\nappend a 0 0 1\r\ny\r\nget b\r\n")?;
    Ok(bytes)
}

const LARGE_REPLIES: &[u8] =
    b"STORED\r\nSERVER_ERROR object too large for cache\r\nSERVER_ERROR object too large for cache\r\nEND\r\n";

fn large_come_in_pieces(rt: &impl Wait, alloc: Global, piece: usize) -> Result<bool, AllocError> {
    let input = large_sets(alloc)?;
    let sides = Sides {
        most: piece,
        ..all_of(input.as_slice())
    };
    comes_to(rt, alloc, sides, Ok(End::Input), LARGE_REPLIES)
}

#[test]
fn larger_size_limit_in_pieces(rt: HostRuntime) -> Result<(), Fail> {
    holds(large_come_in_pieces(&rt, rt.alloc(), 4095))
}
