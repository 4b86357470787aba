//! What masters are answered, as frames carry it.
ghost use Rattle.std.specs.Prelude.{◌≡◌};
ghost use Rattle.leases.specs.declared.orders.Order.TheVariants as orders;
ghost use Rattle.links.specs.Orders.{alive_of, number_of, stamp_in};

use leases::{Order, Report, Term};
use wire::{Alive, Beat};

/// What a frame that was heard is answered.
#[derive(Clone, Copy)]
pub enum Response {
    /// Nothing.
    Nothing,
    /// That the notice of this server was brought.
    Noted(u8),
    /// How the server is.
    Alive(Alive),
}

/// A beat as a lease hears it. A stamp of 0 stands for none, so a server whose clock showed 0 loses one beat.
pub fn order_of(beat: Beat) -> Order
    ensures { result ≡ orders.Beat beat.epoch (stamp_in beat.stamp) }
{
    Order::Beat(beat.epoch, stamp_in(beat.stamp))
}

/// A report as a frame carries it: the term of a lease that has none is 0.
pub fn alive_of(report: Report) -> Alive
    ensures { result ≡ alive_of report }
{
    Alive {
        epoch: report.epoch,
        stamp: report.stamp,
        end: report.end,
        term: number_of(report.term),
        gone: report.gone,
        known: report.known,
    }
}

// The stamp that a beat brings back, if it does.
fn stamp_in(stamp: u64) -> Option<u64>
    ensures { result ≡ stamp_in stamp }
{
    if stamp == 0 { None } else { Some(stamp) }
}

// How many nanoseconds a term has; 0 stands for none.
fn number_of(term: Option<Term>) -> u64
    ensures { result ≡ number_of term }
{
    match term {
        None => 0,
        Some(term) => term.nanoseconds(),
    }
}
