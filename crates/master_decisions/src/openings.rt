//! What came of opening a connection to a server, and what that means: for a watch, and for a request that waits.
ghost use Rattle.std.specs.Prelude.{◌≡◌};
ghost use Rattle.master_decisions.specs.Openings.{answer_of, may_go, observation_of};

use crate::notices::Answer;
use crate::orders::named_in;
use crate::standings::Observation;
use leases::Order;
use wire::Reason;

/// What came of opening a connection.
#[derive(Clone, Copy, PartialEq, Eq)]
pub enum Opening {
    /// The server has accepted it: the start of it that was known, or the first one.
    Accepted,
    /// Another start of the server has.
    Anew,
    /// Its host has no address.
    NoHost,
    /// Nothing listens at its port.
    NoListener,
    /// Nobody answered there.
    NoAnswer,
    /// It refuses the master.
    Refused(Reason),
}

/// What a watch makes of it.
pub fn observation_of(opening: Opening) -> Observation
    ensures { result ≡ observation_of opening }
{
    match opening {
        Opening::Accepted => Observation::Accepted,
        Opening::Anew => Observation::Replaced,
        Opening::NoListener => Observation::Refused,
        Opening::NoHost | Opening::NoAnswer | Opening::Refused(_) => Observation::Unreached,
    }
}

/// What it answers to a request.
pub fn answer_of(opening: Opening) -> Answer
    ensures { result ≡ answer_of opening }
{
    match opening {
        Opening::Accepted => Answer::Done,
        Opening::Anew => Answer::Anew,
        Opening::NoHost => Answer::NoHost,
        Opening::NoListener | Opening::NoAnswer => Answer::Silent,
        Opening::Refused(reason) => Answer::Refused(reason),
    }
}

/// Whether an order may go to server `own`: another start of it than is known is told only of itself.
pub fn may_go(is_known: bool, own: u8, order: Order) -> bool
    ensures { result ≡ may_go is_known own order }
{
    is_known || named_in(order) == Some(own)
}
