//! Counts that contracts alone see.
ghost use Rattle.std.specs.Prelude.{◌≡◌, ◌+◌, ◌∷◌};

use boxcar::tag::{Names, Tag};
use std::marker::Model;

/// A count without an upper bound, which takes no memory: `rise` does nothing when the program runs.
/// Contracts see it as a number.
#[derive(Drop)]
pub struct Failures {
    // A number for each failure.
    tag: Tag,
}

impl Model for Failures {
    ghost use Rattle.std.specs.Prelude.{ℕ, length};

    ghost Value = { ℕ };

    ghost view = { λ f. length f.tag.numbers };
}

impl Failures {
    /// A count of 0.
    pub fn new() -> Failures
        ensures { result ≡ 0 }
    {
        Failures { tag: Tag::empty() }
    }

    /// One more.
    pub fn rise(&mut self)
        ensures { self.new ≡ self.old + 1 }
    {
        let tag = Tag::of::<Tag, OneMore>(&self.tag);
        self.tag = tag;
    }
}

struct OneMore;

impl Names<Tag> for OneMore {
    ghost numbers = { λ tag. 0 ∷ tag.numbers };
}
