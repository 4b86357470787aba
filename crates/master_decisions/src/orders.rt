//! What a master sends and hears for leases, as frames carry it.
ghost use Rattle.std.specs.Prelude.{◌≡◌, MatchOption};
ghost use Rattle.master_decisions.specs.Orders.{IsTerm, Tells, frame_of, named_in, number_of};

use leases::{Order, Report, Term};
use wire::{Alive, Beat, Frame, Silent};

/// An order as a frame. A beat that brings back no stamp has the stamp 0, and so has one that brings back 0, since a
/// frame can't tell the two apart: the server loses one beat then.
pub fn frame_of(order: Order) -> Frame
    ensures { result ≡ frame_of order }
{
    match order {
        Order::Reign(epoch) => Frame::Reign(epoch),
        Order::Beat(epoch, stamp) => Frame::Beat(Beat {
            epoch,
            stamp: number_of(stamp),
        }),
        Order::Silent(epoch, id) => Frame::Silent(Silent { epoch, id }),
        Order::Gone(id) => Frame::Gone(id),
    }
}

fn number_of(number: Option<u64>) -> u64
    ensures { result ≡ number_of number }
{
    match number {
        None => 0,
        Some(number) => number,
    }
}

/// What a frame says of a server. None if its term is that of no lease.
pub fn report_of(alive: Alive) -> Option<Report>
    ensures { MatchOption result (IsTerm alive.term → ⊥) (λ report. Tells alive report) }
{
    if alive.term == 0 {
        return Some(report_with(alive, None));
    }
    match Term::of_nanoseconds(alive.term) {
        Some(term) => Some(report_with(alive, Some(term))),
        None => None,
    }
}

// What it says, if this is the term.
fn report_with(alive: Alive, term: Option<Term>) -> Report
    ensures { result ≡ record {
      epoch = alive.epoch;
      stamp = alive.stamp;
      end = alive.end;
      term = term;
      gone = alive.gone;
      known = alive.known;
    } }
{
    Report {
        epoch: alive.epoch,
        stamp: alive.stamp,
        end: alive.end,
        term,
        gone: alive.gone,
        known: alive.known,
    }
}

/// The server that an order names as silent or gone, if it does.
pub fn named_in(order: Order) -> Option<u8>
    ensures { result ≡ named_in order }
{
    match order {
        Order::Reign(_) => None,
        Order::Beat(_, _) => None,
        Order::Silent(_, id) => Some(id),
        Order::Gone(id) => Some(id),
    }
}
