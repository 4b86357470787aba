//! Points of a picture.

/// A point of a picture, in its units from the left and from the top.
#[derive(Clone, Copy)]
pub struct Point {
    /// From the left.
    pub x: usize,
    /// From the top.
    pub y: usize,
}

impl Point {
    ghost use Rattle.std.specs.Prelude.{◌≡◌};
    ghost use Rattle.traces.specs.Columns.{shifted};

    /// The point further to the right and below by this much, or to the left and above where a number is negative: as
    /// far as the edge, or as 64 bits count.
    pub fn moved(self, right: isize, down: isize) -> Point
        ensures x { result.x ≡ shifted self.x right }
        ensures y { result.y ≡ shifted self.y down }
    {
        Point {
            x: self.x.saturating_add_signed(right),
            y: self.y.saturating_add_signed(down),
        }
    }
}
