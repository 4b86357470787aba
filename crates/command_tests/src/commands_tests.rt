use commands::scenario;
use ends::{TrackedReader, TrackedWriter};
use std::alloc::Global;
use std::io;
use std::io::{Error, ErrorKind};

const SET_THEN_GETS: &[u8] =
    b"servers 1\nhomes 0\npiece 0 set a 5 0 3\\r\\nxyz\\r\\ngets a\\r\\n\nbegin 0\nwork 0\nhand 0\nbegin 0\nwork 0\nhand 0\n";

const SHOWN: &[u8] =
    b"connection 0 server 0 begun 2 answered 2\n| STORED\\r\\n\n| VALUE a 5 3 1\\r\\n\n| xyz\\r\\n\n| END\\r\\n\nquiet\n";

// A reader that gives this many bytes in all, a few at a time, and then fails.
#[derive(Drop)]
struct FailingReader<'a> {
    bytes: &'a [u8],
    left: usize,
}

impl io::Read for FailingReader<'_> {
    fn read(&mut self, buf: &mut [u8]) -> io::Result<usize> {
        if self.left == 0 {
            return Err(Error::from(ErrorKind::Other));
        }
        let n = self.bytes.len().min(buf.len()).min(self.left).min(7);
        buf[..n].copy_from_slice(&self.bytes[..n]);
        self.bytes = &self.bytes[n..];
        self.left -= n;
        Ok(n)
    }
}

// A writer that takes this many bytes in all, a few at a time, and then fails.
#[derive(Drop)]
struct FailingWriter {
    held: Vec<u8>,
    left: usize,
}

impl io::Write for FailingWriter {
    fn write(&mut self, buf: &[u8]) -> io::Result<usize> {
        if self.left == 0 {
            return Err(Error::from(ErrorKind::Other));
        }
        let n = buf.len().min(self.left).min(7);
        self.held.extend_from_slice(&buf[..n])?;
        self.left -= n;
        Ok(n)
    }

    fn flush(&mut self) -> io::Result<()> {
        Ok(())
    }
}

// What a scenario left: its status, its output and its errors.
#[derive(Drop)]
struct Left {
    status: u8,
    output: Vec<u8>,
    errors: Vec<u8>,
}

// A scenario over a reader that fails after `reads` bytes and a writer that fails after `writes`.
fn replayed(alloc: Global, bytes: &[u8], reads: usize, writes: usize) -> Left {
    let held = Vec::new(alloc);
    let mut source = TrackedReader::new(FailingReader { bytes, left: reads });
    let mut sink = TrackedWriter::new(FailingWriter { held, left: writes });
    let mut errors = TrackedWriter::new(Vec::new(alloc));
    let status = scenario(alloc, "a.schedule", &mut source, &mut sink, &mut errors);
    Left {
        status,
        output: sink.inner.held,
        errors: errors.inner,
    }
}

// Whether a scenario left this status, this output and these errors.
fn has_left(left: &Left, status: u8, output: &[u8], errors: &[u8]) -> bool {
    left.status == status && left.output.as_slice() == output && left.errors.as_slice() == errors
}

#[test]
fn set_then_gets(rt: HostRuntime) {
    let left = replayed(rt.alloc(), SET_THEN_GETS, 4096, 4096);
    assert!(rt; has_left(&left, 0, SHOWN, b""));
}

// Whether a scenario of these bytes has no output, and this line of its fault.
fn has_fault(alloc: Global, bytes: &[u8], line: &[u8]) -> bool {
    let left = replayed(alloc, bytes, 4096, 4096);
    has_left(&left, 1, b"", line)
}

#[test]
fn a_fault_is_one_line_and_no_output(rt: HostRuntime) {
    assert!(rt; has_fault(rt.alloc(), b"", b"craq: line 1: bad schedule line\n"));
    assert!(rt;
        has_fault(
            rt.alloc(),
            b"servers 1\nhomes 0\nbegin x\n",
            b"craq: line 3: bad schedule line\n",
        )
    );
    assert!(rt;
        has_fault(
            rt.alloc(),
            b"servers 17\nhomes 0\n",
            b"craq: line 1: bad schedule line\n",
        )
    );
    assert!(rt;
        has_fault(
            rt.alloc(),
            b"servers 1\nhomes 0\nbegin 0\nwait 0",
            b"craq: line 4: bad schedule line\n",
        )
    );
}

// Whether a scenario whose reader fails after n bytes has no output, and says that the file can't be read.
fn is_unreadable_after(alloc: Global, reads: usize) -> bool {
    let left = replayed(alloc, SET_THEN_GETS, reads, 4096);
    has_left(&left, 1, b"", b"craq: cannot read a.schedule\n")
}

#[test]
fn a_reader_that_fails(rt: HostRuntime) {
    for reads in [0, 1, 9, 30] {
        assert!(rt; is_unreadable_after(rt.alloc(), reads), "after {reads}");
    }
}

// Whether a scenario whose writer fails after n bytes has put out these, and says that its run failed.
fn is_cut_after(alloc: Global, writes: usize) -> bool {
    let left = replayed(alloc, SET_THEN_GETS, 4096, writes);
    match SHOWN.get(..writes) {
        Some(front) => has_left(&left, 1, front, b"craq: run failed\n"),
        None => false,
    }
}

#[test]
fn a_writer_that_fails(rt: HostRuntime) {
    for writes in [0, 1, 7, 60] {
        assert!(rt; is_cut_after(rt.alloc(), writes), "after {writes}");
    }
}
