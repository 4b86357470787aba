//! The receiver's end of a stream: what was handed on.
ghost use Rattle.std.specs.Prelude.{◌≡◌};

use std::marker::Model;

/// How much of a sender's stream was handed on. Contracts see the start of the sender's process, and a count of bytes
/// (`Receiving`).
#[derive(Debug, Drop)]
pub struct ReceivedStream {
    start: u64,
    handed: u64,
}

impl Model for ReceivedStream {
    ghost use Rattle.link_streams.specs.Streams.{Receiving};

    ghost Value = { Receiving };

    ghost view = { λ r. record { start = r.start; handed = r.handed } };
}

impl ReceivedStream {
    ghost use Rattle.std.specs.Prelude.{◌≡◌, ◌+◌, ◌^◌, ◌<◌, ◌↔◌, IsTrue, false};
    ghost use Rattle.link_streams.specs.Streams.{handed_on, resumes, unheard_of};

    /// The stream of this start of a sender, of which nothing was handed on.
    pub fn new(start: u64) -> ReceivedStream
        ensures { result ≡ unheard_of start }
    {
        ReceivedStream { start, handed: 0 }
    }

    /// Where a new connection goes on, if it is one of the same start. What has come over an earlier one, and wasn't
    /// handed on, has to be forgotten.
    pub fn resumes(&self, start: u64) -> Option<u64>
        ensures { result ≡ resumes self.now start }
    {
        if start == self.start {
            Some(self.handed)
        } else {
            None
        }
    }

    /// How many bytes were handed on, in whole frames: what may be confirmed.
    pub fn handed(&self) -> u64
        ensures { result ≡ self.now.handed }
    {
        self.handed
    }

    /// A whole frame of so many bytes was handed on. It counts them, unless that makes 2^64 bytes or more.
    pub fn hand_on(&mut self, length: usize) -> bool
        ensures counted { IsTrue result → self.new ≡ handed_on self.old length }
        ensures stays { result ≡ false → self.new ≡ self.old }
        ensures fits { IsTrue result ↔ (self.old.handed + length < 2 ^ 64) }
    {
        let Some(handed) = self.handed.checked_add(length as u64) else {
            return false;
        };
        *self = ReceivedStream {
            start: self.start,
            handed,
        };
        true
    }
}
