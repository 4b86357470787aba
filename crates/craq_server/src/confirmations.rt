//! When a server confirms what links brought it.
ghost use Rattle.std.specs.Prelude.{◌≡◌, ◌/◌, min, nat_le};
ghost use Rattle.craq_server.specs.Confirmations.{due};

/// How long what was handed on may go unconfirmed at most, in nanoseconds.
const LONGEST: u64 = 250_000_000;

/// From how many unconfirmed bytes on they are confirmed at once.
const MUCH: u64 = 1_048_576;

/// What is due of confirmations.
#[derive(Clone, Copy, Debug, PartialEq, Eq)]
pub(crate) enum ConfirmationDue {
    /// Nothing: all is confirmed.
    Nothing,
    /// They are sent at this time.
    At(u64),
    /// They are sent now.
    Now,
}

/// How long what was handed on may go unconfirmed, in nanoseconds, if a connection may take nothing for `timeout`: a
/// quarter of that, and at most 250 milliseconds. So a connection that takes what is sent never seems to take nothing.
pub(crate) fn confirmation_delay(timeout: u64) -> u64
    ensures { result ≡ min 250000000 (timeout / 4) }
{
    LONGEST.min(timeout / 4)
}

/// Whether so many unconfirmed bytes are confirmed at once.
pub(crate) fn is_much(unconfirmed: u64) -> bool
    ensures { result ≡ nat_le 1048576 unconfirmed }
{
    unconfirmed >= MUCH
}

/// What is due now, if confirmations were to be sent at this time, so many bytes aren't confirmed, and they may stay so
/// for `delay`.
pub(crate) fn confirmation_due(
    at: Option<u64>,
    unconfirmed: u64,
    delay: u64,
    now: u64,
) -> ConfirmationDue
    ensures { result ≡ due at unconfirmed delay now }
{
    if is_much(unconfirmed) {
        return ConfirmationDue::Now;
    }
    match at {
        Some(at) if now < at => ConfirmationDue::At(at),
        Some(_) => ConfirmationDue::Now,
        None if unconfirmed == 0 => ConfirmationDue::Nothing,
        None => ConfirmationDue::At(now.saturating_add(delay)),
    }
}
