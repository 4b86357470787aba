//! Notes of what a server has published.
ghost use Rattle.std.specs.Prelude.{◌≡◌, MatchBool};
ghost use Rattle.faces.specs.Histories.{IsLater, shown_after};
ghost use Rattle.faces.specs.Showing.{Shows};
ghost use Rattle.faces.specs.Weights.{weight_of};

use crate::Weight;
use crate::boards::FaceWriter;
use crate::log_positions::LogPosition;
use std::marker::Model;

/// What a server has published: its face after these inputs was shown. Only a publish makes one. Contracts see the
/// inputs (`History`).
#[derive(Drop)]
pub struct Published {
    log_position: LogPosition,
    // Of that face.
    weight: Weight,
}

impl Model for Published {
    ghost use Rattle.std.specs.Prelude.{◌≡◌};
    ghost use Rattle.std.specs.FinMap as maps;
    ghost use Rattle.std.specs.Coded.{codes};
    ghost use Rattle.logbook.specs.Pages.{book_coded};
    ghost use Rattle.versions.specs.Stores.{coded_items};
    ghost use Rattle.faces.specs.Histories.{History, shown_after};
    ghost use Rattle.faces.specs.Weights.{weight_of};

    ghost Value = { History };

    ghost coded = { Prim.hlevel (codes, coded_items, book_coded) };

    ghost view = { λ p. p.log_position };

    ghost invariant = { λ p. (p.weight.items ≡ (weight_of (shown_after p.log_position).versions).items)
        × (p.weight.bytes ≡ (weight_of (shown_after p.log_position).versions).bytes) };
}

/// A note of what a server has published, for one of its readers. Contracts see the inputs (`History`).
#[derive(Drop)]
pub struct Told {
    log_position: LogPosition,
}

impl Model for Told {
    ghost use Rattle.std.specs.Coded.{codes};
    ghost use Rattle.logbook.specs.Pages.{book_coded};
    ghost use Rattle.versions.specs.Stores.{coded_items};
    ghost use Rattle.faces.specs.Histories.{History};

    ghost Value = { History };

    ghost coded = { Prim.hlevel (codes, coded_items, book_coded) };

    ghost view = { λ t. t.log_position };
}

impl Published {
    /// For the publish alone: the writer shows the server's face after these inputs.
    pub(crate) fn shown(writer: &FaceWriter) -> Published
        requires { Shows writer.now writer.now.desk.shown.value.history }
        ensures { result ≡ writer.now.desk.shown.value.history }
    {
        let face = writer.published();
        Published {
            log_position: face.log_position().again(),
            weight: face.weight(),
        }
    }

    /// How much that face weighs. In constant time.
    pub fn weight(&self) -> Weight
        ensures { result ≡ weight_of (shown_after self.now).versions }
    {
        self.weight
    }

    pub(crate) fn log_position(&self) -> &LogPosition
        ensures { result.now ≡ self.now }
    {
        &self.log_position
    }

    /// A copy.
    pub fn again(&self) -> Published
        ensures { result ≡ self.now }
    {
        Published {
            log_position: self.log_position.again(),
            weight: self.weight,
        }
    }

    /// A note of it.
    pub fn tell(&self) -> Told
        ensures { result ≡ self.now }
    {
        Told {
            log_position: self.log_position.again(),
        }
    }
}

impl Told {
    /// For a reader: it has seen these inputs.
    pub(crate) fn of(log_position: LogPosition) -> Told
        ensures { result ≡ log_position }
    {
        Told { log_position }
    }

    /// Whether it tells of all the inputs that the other one tells of. Of two histories of one server, one begins with
    /// the other.
    pub fn has_all_of(&self, other: &Told) -> bool
        requires server { other.now.instance ≡ self.now.instance }
        ensures { MatchBool result (IsLater other.now self.now) (IsLater self.now other.now) }
    {
        self.log_position.has_all_of(&other.log_position)
    }

    /// A copy.
    pub fn again(&self) -> Told
        ensures { result ≡ self.now }
    {
        Told {
            log_position: self.log_position.again(),
        }
    }

    pub(crate) fn into_log_position(self) -> LogPosition
        ensures { result ≡ self }
    {
        self.log_position
    }
}
