//! A client's socket, which waits for nothing, with the history of its bytes that contracts see.
ghost use Rattle.std.specs.Prelude.{◌≡◌, ◌≤◌, ◌+◌, ◌++◌, [], length};
ghost use Rattle.io_threads.specs.ClientSockets.{TakesSome, came, came_in, read_faults, went, went_out, write_faults};

use ends::{Failures, Passed};
use server_guards::Permit;
use std::io::{ErrorKind, Read, Write};

/// What came of a read.
#[derive(Clone, Copy, PartialEq, Eq)]
pub enum ReadOutcome {
    /// This many bytes.
    Bytes(usize),
    /// Nothing: no byte stands there now.
    Nothing,
    /// Nothing: the input has ended.
    End,
    /// Nothing: the read failed.
    Fault,
}

/// What came of a write.
#[derive(Clone, Copy, PartialEq, Eq)]
pub enum WriteOutcome {
    /// This many bytes were taken.
    Bytes(usize),
    /// None: the socket takes none now.
    Nothing,
    /// None: the write failed, or took nothing.
    Fault,
}

/// A socket that waits for nothing.
#[derive(Drop)]
pub struct ClientSocket<S: Read + Write> {
    // The socket. Nobody else reads it, or writes it without a permit.
    inner: S,
    /// The bytes that its reads gave.
    pub given: Passed,
    /// The bytes that its writes took.
    pub taken: Passed,
    /// How many of its reads and writes have failed.
    pub faults: Failures,
}

impl<S: Read + Write> ClientSocket<S> {
    /// A socket that was neither read nor written.
    pub fn new(inner: S) -> ClientSocket<S>
        ensures given { result.given ≡ [] }
        ensures taken { result.taken ≡ [] }
        ensures fresh { result.faults ≡ 0 }
    {
        ClientSocket {
            inner,
            given: Passed::new(),
            taken: Passed::new(),
            faults: Failures::new(),
        }
    }

    /// Reads once, into the front of the slice.
    pub fn read(&mut self, piece: &mut [u8]) -> ReadOutcome
        ensures bound { came result ≤ length piece.new }
        ensures given { self.new.given ≡ self.old.given ++ came_in result piece.new }
        ensures taken { self.new.taken ≡ self.old.taken }
        ensures faults { self.new.faults ≡ self.old.faults + read_faults result }
    {
        match self.inner.read(piece) {
            Ok(0) => ReadOutcome::End,
            Ok(n) => {
                self.given.add(&piece[..n]);
                ReadOutcome::Bytes(n)
            }
            Err(e) => {
                if e.kind() == ErrorKind::WouldBlock {
                    ReadOutcome::Nothing
                } else {
                    self.faults.rise();
                    ReadOutcome::Fault
                }
            }
        }
    }

    /// Writes once, from the front of the slice, for which this permit was given. If the socket takes no byte and names
    /// no error, the write has failed.
    pub fn write(&mut self, bytes: &[u8], permit: Permit) -> WriteOutcome
        requires permitted { permit ≡ bytes.now }
        ensures bound { went result ≤ length bytes.now }
        ensures some { TakesSome result }
        ensures given { self.new.given ≡ self.old.given }
        ensures taken { self.new.taken ≡ self.old.taken ++ went_out result bytes.now }
        ensures faults { self.new.faults ≡ self.old.faults + write_faults result }
    {
        drop(permit);
        match self.inner.write(bytes) {
            Ok(0) => {
                self.faults.rise();
                WriteOutcome::Fault
            }
            Ok(n) => {
                self.taken.add(&bytes[..n]);
                WriteOutcome::Bytes(n)
            }
            Err(e) => {
                if e.kind() == ErrorKind::WouldBlock {
                    WriteOutcome::Nothing
                } else {
                    self.faults.rise();
                    WriteOutcome::Fault
                }
            }
        }
    }
}
