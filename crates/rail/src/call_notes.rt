//! Notes of calls that were sent, which contracts alone see.
ghost use Rattle.std.specs.Prelude.{◌≡◌};

use crate::call_senders::CallSender;
use std::marker::Model;
use std::snapshot::Snapshot;
use table::Call;

/// A note of a call that was sent at a seat. It takes no memory. Contracts see the call, and its sender as it was then
/// (`SentCall`).
#[derive(Drop)]
pub struct CallNote {
    sender: Snapshot<CallSender>,
    call: Snapshot<Call>,
}

impl Model for CallNote {
    ghost use Rattle.std.specs.Coded.{codes};
    ghost use Rattle.atomic_table.specs.Seated.{table_id_coded};
    ghost use Rattle.logbook.specs.Pages.{book_coded};
    ghost use Rattle.versions.specs.Stores.{coded_items};
    ghost use Rattle.rail.specs.CallSenders.{SentCall};

    ghost Value = { SentCall };

    ghost coded = { Prim.hlevel (codes, coded_items, book_coded, table_id_coded) };

    ghost view = { λ n. record { sender = n.sender.value; call = n.call.value } };
}

impl CallNote {
    pub(crate) fn new(call_sender: &CallSender, call: &Call) -> CallNote
        ensures { result ≡ record { sender = call_sender.now; call = call.now } }
    {
        CallNote {
            sender: Snapshot::of(call_sender),
            call: Snapshot::of(call),
        }
    }
}
