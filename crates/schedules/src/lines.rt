//! The lines of a text, one after another, each with its number.
ghost use Rattle.std.specs.Prelude.{◌≡◌, ◌+◌, ◌<◌, [], ◌∷◌, MatchOption, length, Some};
ghost use Rattle.schedules.specs.Splits.{is_passed_over, lines, counted_from};

use crate::splits::split_once;
use std::marker::Model;

/// What is left of a text, and how many of its lines were taken. Contracts see the lines that count
/// and are left, each with its number; how many lines were taken; and how many the text has.
#[derive(Drop)]
pub struct Lines<'a> {
    rest: &'a [u8],
    taken: u64,
}

impl<'a> Model for Lines<'a> {
    ghost use Rattle.std.specs.Prelude.{◌+◌, ◌<◌, ◌^◌, length};
    ghost use Rattle.schedules.specs.Splits.{LinesLeft, lines, counted_from};

    ghost Value = { LinesLeft };

    ghost view = { λ l. record {
      counted = counted_from (l.taken + 1) (lines l.rest.now);
      taken = l.taken;
      all = l.taken + length (lines l.rest.now);
    } };

    ghost invariant = { λ l. l.taken + length l.rest.now < 2 ^ 64 };
}

impl<'a> Lines<'a> {
    /// All lines of a text.
    pub fn new(text: &'a [u8]) -> Lines<'a>
        ensures counted { result.counted ≡ counted_from 1 (lines text.now) }
        ensures all { result.all ≡ length (lines text.now) }
    {
        Lines {
            rest: text,
            taken: 0,
        }
    }

    /// The number of the line that was taken last, counting from 1.
    pub fn taken(&self) -> u64
        ensures { result ≡ self.now.taken }
    {
        self.taken
    }

    /// Takes the next line that counts: one that isn't empty and doesn't begin with `#`.
    pub fn next_counted(&mut self) -> Option<&'a [u8]>
        ensures next { MatchOption result ((self.old.counted ≡ []) × (self.new.taken ≡ self.old.all))
            (λ line. self.old.counted ≡ (self.new.taken, line.now) ∷ self.new.counted) }
        ensures all { self.new.all ≡ self.old.all }
    {
        while !self.rest.is_empty() {
            let (line, later) = first_line(self.rest);
            self.rest = later;
            self.taken += 1;
            if !is_passed_over(line) {
                return Some(line);
            }
        }
        None
    }
}

fn first_line(text: &[u8]) -> (&[u8], &[u8])
    requires { 0 < length text.now }
    ensures lines { lines text.now ≡ result.0.now ∷ lines result.1.now }
    ensures shorter { length result.1.now < length text.now }
{
    match split_once(b'\n', text) {
        Some(parts) => parts,
        None => (text, &[]),
    }
}

fn is_passed_over(line: &[u8]) -> bool
    ensures { result ≡ is_passed_over line.now }
{
    matches!(line, [] | [b'#', ..])
}
