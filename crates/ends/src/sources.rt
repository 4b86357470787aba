//! Where bytes come from: any reader of std, with the history of its reads that contracts see.
ghost use Rattle.std.specs.Prelude.{◌≡◌, ◌++◌, ℕ, List, [], Bool, false, Some};
ghost use Rattle.std.specs.Io.{ReadsAtMost};
ghost use Rattle.std.specs.Option.{ForSome};
ghost use Rattle.std.specs.Io.KnownBytes.{prepend_known};
ghost use Rattle.ends.specs.Ends.{failures_after_read, ended_after_read, passed};

use crate::failures::Failures;
use crate::passages::Passed;
use std::io;
use std::snapshot::Snapshot;

/// Where bytes come from: std's `read`, with a history that contracts alone see.
pub trait Source {
    /// The bytes that its reads gave, in order.
    ghost given: { Self → List ℕ };

    /// Whether its input has ended: a read gave nothing for a slice that isn't empty.
    ghost has_ended: { Self → Bool };

    /// How many of its reads have failed.
    ghost failures: { Self → ℕ };

    /// Puts some bytes at the front of the slice, and answers how many. It fails if it answers an error.
    fn read(&mut self, bytes: &mut [u8]) -> io::Result<usize>
        ensures bound { ReadsAtMost result bytes.new }
        ensures given { given self.new ≡ given self.old ++ passed result bytes.new }
        ensures ended { has_ended self.new ≡ ended_after_read result bytes.new (has_ended self.old) }
        ensures counted { failures self.new ≡ failures_after_read result (failures self.old) };
}

/// Any reader of std as a source: a file, a socket, bytes in memory.
#[derive(Drop)]
pub struct TrackedReader<R: io::Read> {
    /// The reader.
    pub inner: R,
    /// The reader as it was at first, for contracts alone.
    pub first: Snapshot<R>,
    /// The bytes that its reads gave.
    pub given: Passed,
    /// Whether a read gave nothing for a slice that isn't empty.
    pub has_ended: bool,
    /// How many reads answered an error.
    pub failures: Failures,
    // If std tells which bytes the reader had at first, it had those that it gave, and then those that it has left.
    ghost told: { ForSome (R.remaining first.value) (λ all. prepend_known given (R.remaining inner) ≡ Some all) },
}

impl<R: io::Read> TrackedReader<R> {
    /// A reader that hasn't been read yet.
    pub fn new(inner: R) -> TrackedReader<R>
        ensures inner { result.inner ≡ inner }
        ensures first { result.first.value ≡ inner }
        ensures given { result.given ≡ [] }
        ensures open { result.has_ended ≡ false }
        ensures failures { result.failures ≡ 0 }
    {
        let first = Snapshot::of(&inner);
        TrackedReader {
            inner,
            first,
            given: Passed::new(),
            has_ended: false,
            failures: Failures::new(),
        }
    }
}

impl<R: io::Read> Source for TrackedReader<R> {
    ghost given = { λ s. s.given };

    ghost has_ended = { λ s. s.has_ended };

    ghost failures = { λ s. s.failures };

    fn read(&mut self, bytes: &mut [u8]) -> io::Result<usize> {
        let result = self.inner.read(bytes);
        match &result {
            Ok(0) if !bytes.is_empty() => self.has_ended = true,
            Ok(n) => self.given.add(&bytes[..*n]),
            Err(_) => self.failures.rise(),
        }
        result
    }
}
