//! How lately a master that watches has heard each server, on a connection that stands. A person reads of it.
ghost use Rattle.std.specs.Prelude.{◌≡◌, ◌<◌, ◌+◌, ◌/◌, ◌&&◌, ℕ, None, Some, min, not, replicate, slice_set};
ghost use Rattle.std.specs.Prelude.{true, false};
ghost use Rattle.master_decisions.specs.Presence.{answers, answers_at, attended, heard_at};
ghost use Rattle.master_decisions.specs.ServerSets.{and_one, is_among};

use crate::news::News;
use crate::server_sets::{and_one, is_among};
use node::{SERVERS, View};

/// For this many beats a server counts as one that answers: it tells how it is at each.
pub(crate) const BEATS: u64 = 3;

/// When each server was heard for the last time, by their ids: milliseconds since the master began. None of one to
/// which no connection stands.
#[derive(Drop)]
pub struct Presence {
    heard: [Option<u64>; SERVERS as usize],
}

impl Presence {
    /// Before a server was heard.
    pub fn new() -> Presence
        ensures { result.heard ≡ replicate 16 None }
    {
        Presence {
            heard: [None; SERVERS as usize],
        }
    }

    /// This is new, so many milliseconds after the master began: who was heard is noted, and to whom no connection
    /// stands.
    pub fn attend(&mut self, milliseconds: u64, news: &News)
        ensures { self.new.heard ≡ attended self.old.heard milliseconds news.now }
    {
        match news {
            News::Met(i, _, _) | News::Told(i, _) => self.put(*i, Some(milliseconds)),
            News::Broken(i) | News::Lost(i) | News::Ended(i) => self.put(*i, None),
            News::Typed(_)
            | News::BadLine
            | News::Stalled(_, _)
            | News::Answered(_, _)
            | News::Fault(_) => {}
        }
    }

    // Server i was heard then; or no connection to it stands.
    fn put(&mut self, i: u8, heard: Option<u64>)
        ensures { self.new.heard ≡ slice_set self.old.heard i heard }
    {
        let i = usize::from(i);
        if i < self.heard.len() {
            self.heard[i] = heard;
        }
    }

    /// Whether server `i` answers, so many milliseconds after the master began, if a beat is so many milliseconds.
    pub fn answers(&self, i: u8, now: u64, beat: u32) -> bool
        ensures { result ≡ answers (heard_at self.now.heard i) now beat }
    {
        answers(self.heard_at(i), now, beat)
    }

    /// The servers that answer then.
    pub fn answering(&self, now: u64, beat: u32) -> View
        ensures { (i : ℕ) → i < 16 → is_among result i ≡ answers_at self.now.heard now beat i }
    {
        let mut answering = View::empty();
        for i in 0..SERVERS {
            if self.answers(i, now, beat) {
                answering = and_one(answering, i);
            }
        }
        answering
    }

    // When server i was heard for the last time, if a connection to it stands.
    fn heard_at(&self, i: u8) -> Option<u64>
        ensures { result ≡ heard_at self.now.heard i }
    {
        let i = usize::from(i);
        if i < self.heard.len() {
            self.heard[i]
        } else {
            None
        }
    }
}

/// In place of a beat, by how many milliseconds a server counts as one that answers where links are judged: a beat; and
/// less if silence is called within five of them, so that a master which is cut off finds that nobody answers.
pub fn pace_of(beat: u32, after: u32) -> u32
    ensures { result ≡ min beat (beat / 6 + after / 6) }
{
    beat.min(beat / 6 + after / 6)
}

// Whether a server answers that was heard then on the connection to it, if one stands: within the last beats.
fn answers(heard: Option<u64>, now: u64, beat: u32) -> bool
    ensures { result ≡ answers heard now beat }
{
    match heard {
        Some(heard) => now.saturating_sub(heard) <= u64::from(beat) * BEATS,
        None => false,
    }
}

/// What a person should know before a line is done that calls a server gone.
#[derive(Clone, Copy)]
pub struct Warning {
    /// It still answers.
    pub is_living: bool,
    /// It is the last one.
    pub is_last: bool,
}

/// The same of server `j` of a chain of that many, of which these are gone, if it answers, or doesn't.
pub fn warning_of(gone: View, servers: u8, j: u8, answers: bool) -> Warning
    ensures living { result.is_living ≡ (answers && not (is_among gone j)) }
    ensures itself { result.is_last ≡ true → is_among gone j ≡ false }
    ensures others { result.is_last ≡ true → (i : ℕ) → i < servers → is_among (and_one gone j) i ≡ true }
    ensures more { result.is_last ≡ false → is_among gone j ≡ false
        → (i : ℕ) × (i < servers) × (is_among (and_one gone j) i ≡ false) }
{
    Warning {
        is_living: answers && !is_among(gone, j),
        is_last: is_last(gone, servers, j),
    }
}

// Whether server j is the last one of a chain of that many servers, of which these are gone.
fn is_last(gone: View, servers: u8, j: u8) -> bool
    ensures itself { result ≡ true → is_among gone j ≡ false }
    ensures others { result ≡ true → (i : ℕ) → i < servers → is_among (and_one gone j) i ≡ true }
    ensures more { result ≡ false → is_among gone j ≡ false
        → (i : ℕ) × (i < servers) × (is_among (and_one gone j) i ≡ false) }
{
    if is_among(gone, j) {
        return false;
    }
    let others = and_one(gone, j);
    for i in 0..servers {
        if !is_among(others, i) {
            return false;
        }
    }
    true
}
