//! Senders of calls, one for the seats of each thread.
ghost use Rattle.std.specs.Prelude.{◌≡◌, MatchResult};
ghost use Rattle.crossbeam_channel.specs.Claims.{view};
ghost use Rattle.node.specs.Lawful.{IsCall};
ghost use Rattle.rail.specs.CallSenders.{call_sender_of, with_call};
ghost use Rattle.rail.specs.Seats.{with_sent};

use crate::call_notes::CallNote;
use crate::inbox::SenderWithPass;
use crate::seats::Seat;
use faces::Published;
use std::marker::Model;
use std::snapshot::Snapshot;
use std::sync::Wait;
use table::Call;

/// Sends the calls of seats to their server. What it sends is taken in that order, whichever seats the calls are of, so
/// a thread's seats have one together. Contracts see whose it is, to which inbox it sends and as which number, and what
/// it sent (`CallSenderState`).
#[derive(Drop)]
pub struct CallSender {
    // Whose it is, which contracts alone see.
    server: Snapshot<Published>,
    inbox_sender: SenderWithPass,
}

impl Model for CallSender {
    ghost use Rattle.std.specs.Coded.{codes};
    ghost use Rattle.atomic_table.specs.Seated.{table_id_coded};
    ghost use Rattle.logbook.specs.Pages.{book_coded};
    ghost use Rattle.versions.specs.Stores.{coded_items};
    ghost use Rattle.crossbeam_channel.specs.Claims as claims;
    ghost use Rattle.rail.specs.CallSenders.{CallSenderState, call_sender_of};

    ghost Value = { CallSenderState };

    ghost coded = { Prim.hlevel (codes, coded_items, book_coded, table_id_coded) };

    ghost view = { λ s. call_sender_of s.server.value.instance s.inbox_sender.pass.table_id
        (claims.view s.inbox_sender.pass) };
}

impl CallSender {
    pub(crate) fn new(published: &Published, inbox_sender: SenderWithPass) -> CallSender
        ensures { result ≡ call_sender_of published.now.instance inbox_sender.pass.table_id (view inbox_sender.pass) }
    {
        CallSender {
            server: Snapshot::of(published),
            inbox_sender,
        }
    }

    /// Sends a call of this seat to their server. The call is handed back if the worker is gone, the sender may not use
    /// the seat's port, or 2^62 calls were sent at the seat. It may wait.
    pub fn submit<R: Wait>(&mut self, rt: &R, seat: &mut Seat, call: Call) -> Result<(), Call>
        requires call { IsCall call }
        requires server { seat.old.instance ≡ self.old.instance }
        ensures sender { MatchResult result (λ _. self.new ≡ with_call self.old seat.old.port call)
            (λ back. (back ≡ call) × (self.new ≡ self.old)) }
        ensures seat { MatchResult result (λ _. seat.new ≡ with_sent seat.old self.old call)
            (λ _. seat.new ≡ seat.old) }
    {
        let call_note = CallNote::new(self, &call);
        seat.send(rt, &mut self.inbox_sender, call_note, call)
    }
}
