//! What a watch makes of what it sees of a server: a machine that reads no clock and sends nothing.
ghost use Rattle.std.specs.Prelude.{◌≡◌, ◌↔◌, true};
ghost use Rattle.master_decisions.specs.Standings.{due, has_ended, is_same_start, is_watched, standing_after, watches};

/// How a server stands with a master that watches.
#[derive(Clone, Copy, PartialEq, Eq)]
pub(crate) enum ReachStanding {
    /// It was never reached.
    Unmet,
    /// It was reached, and nothing was told since.
    Watched,
    /// It was reached, and then no more. Nothing says whether it lives.
    Lost,
    /// It is gone.
    Gone,
}

/// What a watch sees of a server.
#[derive(Clone, Copy, PartialEq, Eq)]
pub enum Observation {
    /// The connection stands.
    Stands,
    /// The server has accepted a new connection: the same start of it as before, if it was reached before.
    Accepted,
    /// Its host refuses a new connection: nothing listens at its port.
    Refused,
    /// Another start of the server has accepted a new connection.
    Replaced,
    /// The connection doesn't stand, and no new one could be opened. Nothing says why.
    Unreached,
}

/// What is due then.
#[derive(Clone, Copy)]
pub(crate) enum Reaction {
    /// Nothing.
    Wait,
    /// To tell that the server has accepted a connection.
    TellMet,
    /// To tell that the server can't be reached.
    TellLost,
    /// To call it gone.
    CallGone,
}

/// What is due if a server that stood so is seen so. It is called gone if it was reached and its process has ended, and
/// in no other case.
pub(crate) fn due(standing: ReachStanding, observation: Observation) -> Reaction
    ensures reaction { result ≡ due standing observation }
    ensures gone { (result ≡ Reaction.CallGone) ↔ ((is_watched standing ≡ true) × (has_ended observation ≡ true)) }
{
    match standing {
        ReachStanding::Unmet => match observation {
            Observation::Accepted => Reaction::TellMet,
            Observation::Stands
            | Observation::Refused
            | Observation::Replaced
            | Observation::Unreached => Reaction::Wait,
        },
        ReachStanding::Watched => match observation {
            Observation::Stands => Reaction::Wait,
            Observation::Accepted => Reaction::TellMet,
            Observation::Refused | Observation::Replaced => Reaction::CallGone,
            Observation::Unreached => Reaction::TellLost,
        },
        ReachStanding::Lost => match observation {
            Observation::Accepted => Reaction::TellMet,
            Observation::Refused | Observation::Replaced => Reaction::CallGone,
            Observation::Stands | Observation::Unreached => Reaction::Wait,
        },
        ReachStanding::Gone => Reaction::Wait,
    }
}

/// How the server stands once that was done.
pub(crate) fn standing_after(standing: ReachStanding, reaction: Reaction) -> ReachStanding
    ensures { result ≡ standing_after standing reaction }
{
    match reaction {
        Reaction::Wait => standing,
        Reaction::TellMet => ReachStanding::Watched,
        Reaction::TellLost => ReachStanding::Lost,
        Reaction::CallGone => ReachStanding::Gone,
    }
}

/// Whether a server that stands so is watched, if it is to be: not once it is gone.
pub(crate) fn watches(is_to_watch: bool, standing: ReachStanding) -> bool
    ensures { result ≡ watches is_to_watch standing }
{
    match standing {
        ReachStanding::Unmet | ReachStanding::Watched | ReachStanding::Lost => is_to_watch,
        ReachStanding::Gone => false,
    }
}

/// Whether this start of a server, which has accepted a connection, is the one that is known, or the first one.
pub(crate) fn is_same_start(known: Option<u64>, start: u64) -> bool
    ensures { result ≡ is_same_start known start }
{
    match known {
        None => true,
        Some(known) => known == start,
    }
}
