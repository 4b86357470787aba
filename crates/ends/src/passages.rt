//! Bytes that contracts alone see.
ghost use Rattle.std.specs.Prelude.{◌≡◌, ◌++◌, []};

use boxcar::tag::{Names, Tag};
use std::marker::Model;

/// The bytes that have passed a reader or a writer. It takes no memory: `add` does nothing when the program runs.
/// Contracts see it as a list.
#[derive(Drop)]
pub struct Passed {
    tag: Tag,
}

impl Model for Passed {
    ghost use Rattle.std.specs.Prelude.{ℕ, List};

    ghost Value = { List ℕ };

    ghost view = { λ p. p.tag.numbers };
}

impl Passed {
    /// No byte.
    pub fn new() -> Passed
        ensures { result ≡ [] }
    {
        Passed { tag: Tag::empty() }
    }

    /// These bytes have passed after the others.
    pub fn add(&mut self, bytes: &[u8])
        ensures { self.new ≡ self.old ++ bytes.now }
    {
        let tag = Tag::of::<Longer<'_>, Joined>(&Longer {
            before: &self.tag,
            bytes,
        });
        self.tag = tag;
    }
}

// The bytes that had passed, and more.
#[derive(Clone, Copy)]
struct Longer<'a> {
    before: &'a Tag,
    bytes: &'a [u8],
}

struct Joined;

impl<'a> Names<Longer<'a>> for Joined {
    ghost numbers = { λ longer. longer.before.now.numbers ++ longer.bytes.now };
}
