//! Frames that contracts alone see.
ghost use Rattle.std.specs.Prelude.{◌≡◌, ◌++◌, ◌∷◌, []};
ghost use Rattle.wire.specs.Spellings.{IsFrame, spelling};

use boxcar::tag::{Names, Tag};
use std::marker::Model;
use wire::Frame;

/// The frames that someone has taken. It takes no memory: `add` does nothing when the program runs.
/// Contracts see it as a list.
#[derive(Drop)]
pub struct TakenFrames {
    // Their spellings, one after another.
    tag: Tag,
}

impl Model for TakenFrames {
    ghost use Rattle.std.specs.Prelude.{List, []};
    ghost use Rattle.wire.specs.declared.frames.Frame.{Frame};
    ghost use Rattle.wire.specs.Streams.{frames_in};
    ghost use Rattle.wire.specs.Ends.{AreFirst};

    ghost Value = { List Frame };

    ghost view = { λ t. frames_in t.tag.numbers };

    ghost invariant = { λ t. AreFirst (frames_in t.tag.numbers) t.tag.numbers [] };
}

impl TakenFrames {
    /// No frame.
    pub fn new() -> TakenFrames
        ensures { result ≡ [] }
    {
        TakenFrames { tag: Tag::empty() }
    }

    /// This frame was taken after the others.
    pub fn add(&mut self, frame: &Frame)
        requires { IsFrame frame.now }
        ensures { self.new ≡ self.old ++ frame.now ∷ [] }
    {
        let tag = Tag::of::<Longer<'_>, Spelled>(&Longer {
            before: &self.tag,
            frame,
        });
        self.tag = tag;
    }
}

// The frames so far, and one more.
#[derive(Clone, Copy)]
struct Longer<'a> {
    before: &'a Tag,
    frame: &'a Frame,
}

struct Spelled;

impl<'a> Names<Longer<'a>> for Spelled {
    ghost numbers = { λ longer. longer.before.now.numbers ++ spelling longer.frame.now };
}
