//! Beginnings of what a server took.
ghost use Rattle.std.specs.Prelude.{◌≡◌, ◌<◌, ◌^◌, ◌++◌, ◌∷◌, [], length, MatchBool, IfSome};
ghost use Rattle.faces.specs.Histories.{IsLater, with_next};

use crate::logs::{Log, LogKnowledge};
use node::{Input, Node};
use std::marker::Model;

// As many inputs as a log may have.
const MOST: u64 = 1 << 61;

/// A beginning of the inputs that a server took. It holds their number alone: contracts see which server it is, what it
/// began with, and the inputs (`History`). Threads may share it.
#[derive(Drop)]
pub struct LogPosition {
    count: u64,
    seen: LogKnowledge,
}

impl Model for LogPosition {
    ghost use Rattle.std.specs.Prelude.{◌≡◌, length, drop};
    ghost use Rattle.std.specs.Coded.{codes};
    ghost use Rattle.logbook.specs.Pages.{book_coded};
    ghost use Rattle.versions.specs.Stores.{coded_items};
    ghost use Rattle.faces.specs.Histories.{History, history_of};
    ghost use Rattle.faces.specs.Logs.{IsBegun};

    ghost Value = { History };

    ghost coded = { Prim.hlevel (codes, coded_items, book_coded) };

    ghost view = { λ f. history_of f.seen.book f.seen.log };

    ghost invariant = { λ f. (length (drop 1 f.seen.log) ≡ f.count) × IsBegun f.seen.log };
}

impl LogPosition {
    /// A log for a server, and its beginning with no input.
    pub(crate) fn open(node: &Node) -> (Log, LogPosition)
        ensures start { (result.1.inputs ≡ []) × (result.1.instance.start ≡ node.now.server) }
        ensures log { result.1.instance.book ≡ result.0.head.book }
    {
        let (log, seen) = Log::open(node);
        (log, LogPosition { count: 0, seen })
    }

    /// A copy.
    pub(crate) fn again(&self) -> LogPosition
        ensures { result ≡ self.now }
    {
        LogPosition {
            count: self.count,
            seen: self.seen.again(),
        }
    }

    /// The beginning that is longer by this input, which is added to the log. It isn't if the log is longer already.
    pub(crate) fn next(&self, log: &Log, input: &Input) -> Option<LogPosition>
        requires log { self.now.instance.book ≡ log.now.head.book }
        ensures { IfSome result (λ log_position. log_position ≡ with_next self.now input.now) }
    {
        if self.count >= MOST {
            return None;
        }
        let mut seen = self.seen.again();
        if !log.add(&mut seen, self.count, input) {
            return None;
        }
        Some(LogPosition {
            count: self.count + 1,
            seen,
        })
    }

    /// Whether this one has all the inputs of the other, of the same server.
    pub(crate) fn has_all_of(&self, other: &LogPosition) -> bool
        requires server { other.now.instance.book ≡ self.now.instance.book }
        ensures { MatchBool result (IsLater other.now self.now) (IsLater self.now other.now) }
    {
        let mut both = self.seen.again();
        both.learn(&other.seen);
        other.count <= self.count
    }
}
