//! Who sits beside a worker.
ghost use Rattle.std.specs.Prelude.{◌≡◌};
ghost use Rattle.std.specs.Coded.{codes};
ghost use Rattle.logbook.specs.Pages.{book_coded};
ghost use Rattle.versions.specs.Stores.{coded_items};

use crate::call_senders::CallSender;
use crate::seats::Seat;
use faces::Reader;

/// A reader and a seat of one server, for one thread beside its worker, and the sender of this thread's calls.
#[derive(Drop)]
pub struct ThreadHandle {
    pub reader: Reader,
    pub seat: Seat,
    pub call_sender: CallSender,
    pub ghost together: { seat.instance ≡ reader.seen.instance } by { Prim.hlevel (codes, coded_items, book_coded) },
    pub ghost sends: { call_sender.instance ≡ reader.seen.instance } by { Prim.hlevel (codes, coded_items, book_coded) },
}
