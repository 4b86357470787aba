//! Where bytes go: any writer of std, with the history of its writes that contracts see.
ghost use Rattle.std.specs.Prelude.{◌≡◌, ◌++◌, ℕ, List, [], Some};
ghost use Rattle.std.specs.Io.{WritesAtMost};
ghost use Rattle.std.specs.Option.{ForSome};
ghost use Rattle.ends.specs.Ends.{failures_after_write, passed};

use crate::failures::Failures;
use crate::passages::Passed;
use std::io;
use std::snapshot::Snapshot;

/// Where bytes go: std's `write`, with a history that contracts alone see.
pub trait Sink {
    /// The bytes that its writes took, in order.
    ghost written: { Self → List ℕ };

    /// How many of its writes have failed.
    ghost failures: { Self → ℕ };

    /// Takes some of the bytes, and answers how many. It fails if it answers an error,
    /// and if it takes none of a slice that isn't empty.
    fn write(&mut self, bytes: &[u8]) -> io::Result<usize>
        ensures bound { WritesAtMost result bytes.now }
        ensures written { written self.new ≡ written self.old ++ passed result bytes.now }
        ensures counted { failures self.new ≡ failures_after_write result bytes.now (failures self.old) };
}

/// Any writer of std as a sink: a standard stream, a socket, a vector.
#[derive(Drop)]
pub struct TrackedWriter<W: io::Write> {
    /// The writer.
    pub inner: W,
    /// The writer as it was at first, for contracts alone.
    pub first: Snapshot<W>,
    /// The bytes that its writes took.
    pub written: Passed,
    /// How many writes answered an error, or took no byte of a slice that isn't empty.
    pub failures: Failures,
    // If std tells which bytes the writer held at first, it holds those, and then those that were written.
    ghost told: { ForSome (W.contents first.value) (λ held. W.contents inner ≡ Some (held ++ written)) },
}

impl<W: io::Write> TrackedWriter<W> {
    /// A writer to which nothing has been written yet.
    pub fn new(inner: W) -> TrackedWriter<W>
        ensures inner { result.inner ≡ inner }
        ensures first { result.first.value ≡ inner }
        ensures written { result.written ≡ [] }
        ensures failures { result.failures ≡ 0 }
    {
        let first = Snapshot::of(&inner);
        TrackedWriter {
            inner,
            first,
            written: Passed::new(),
            failures: Failures::new(),
        }
    }
}

impl<W: io::Write> Sink for TrackedWriter<W> {
    ghost written = { λ s. s.written };

    ghost failures = { λ s. s.failures };

    fn write(&mut self, bytes: &[u8]) -> io::Result<usize> {
        let result = self.inner.write(bytes);
        match &result {
            Ok(0) if !bytes.is_empty() => self.failures.rise(),
            Ok(n) => self.written.add(&bytes[..*n]),
            Err(_) => self.failures.rise(),
        }
        result
    }
}
