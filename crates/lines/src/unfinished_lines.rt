//! A line of which not all has come.
ghost use Rattle.std.specs.Prelude.{◌≡◌, ◌≢◌, ◌++◌, ◌∷◌, [], None, IsSome, IfSome, IfOk, false};

use std::alloc::{AllocError, Global};
use std::mem;

/// The byte at the end of a line.
const END: u8 = b'\n';

/// The beginning of a line that comes byte by byte.
#[derive(Drop)]
pub struct UnfinishedLine {
    alloc: Global,
    /// What has come of it.
    pub bytes: Vec<u8>,
    /// Whether memory was refused for a part of it: then it is dropped at its end.
    pub is_cut: bool,
}

impl UnfinishedLine {
    /// Nothing has come. What comes is put there.
    pub fn new(alloc: Global, room: Vec<u8>) -> UnfinishedLine
        requires { room.items ≡ [] }
        ensures bytes { result.bytes.items ≡ [] }
        ensures whole { result.is_cut ≡ false }
    {
        UnfinishedLine {
            alloc,
            bytes: room,
            is_cut: false,
        }
    }

    /// One more byte. If it ends the line that is given, or Err if memory was refused for a part of it; and then the
    /// next line begins.
    pub fn add(&mut self, byte: u8) -> Option<Result<Vec<u8>, AllocError>>
        ensures unended { byte ≢ 10 → result ≡ None }
        ensures ended { byte ≡ 10 → IsSome result }
        ensures whole { IfSome result
            (λ given. IfOk given (λ line. line.items ≡ self.old.bytes.items ++ byte ∷ [])) }
        ensures grows { result ≡ None → self.new.is_cut ≡ false →
            self.new.bytes.items ≡ self.old.bytes.items ++ byte ∷ [] }
        ensures next { IsSome result → (self.new.bytes.items ≡ []) × (self.new.is_cut ≡ false) }
    {
        if self.bytes.push(byte).is_err() {
            self.is_cut = true;
        }
        if byte != END {
            return None;
        }
        let line = mem::replace(&mut self.bytes, Vec::new(self.alloc));
        if mem::replace(&mut self.is_cut, false) {
            drop(line);
            return Some(Err(AllocError));
        }
        Some(Ok(line))
    }
}
