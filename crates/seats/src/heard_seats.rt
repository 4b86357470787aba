//! The seats whose replies a connection has had, which contracts alone see.
ghost use Rattle.std.specs.Prelude.{◌≡◌, ◌∷◌, ◌++◌, List, []};
ghost use Rattle.std.specs.Coded.{codes};
ghost use Rattle.atomic_table.specs.Seated.{table_id_coded};
ghost use Rattle.logbook.specs.Pages.{book_coded};
ghost use Rattle.versions.specs.Stores.{coded_items};
ghost use base.Fml.{ftrue};
ghost use Rattle.seats.specs.Submitters.{Submitting};

use crate::submitters::Submitter;
use std::marker::Model;

/// The seats whose replies a connection has had, in turn, each as it was while its call was open. It takes no memory:
/// `plus` does nothing when the program runs.
#[derive(Drop)]
pub(crate) struct HeardSeats {
    pub ghost all: { List Submitting } by { Prim.hlevel (codes, coded_items, book_coded, table_id_coded) },
}

impl Model for HeardSeats {
    ghost also_owns = { λ _. ftrue };
}

impl HeardSeats {
    /// None.
    pub(crate) fn new() -> HeardSeats
        ensures { result.all ≡ [] }
    {
        HeardSeats {}
    }

    /// These, and then this one.
    pub(crate) fn plus(&self, _submitter: &Submitter) -> HeardSeats
        ensures { result.all ≡ self.now.all ++ _submitter.now ∷ [] }
    {
        HeardSeats {}
    }
}
