//! What came of asking a server how it is.
ghost use Rattle.std.specs.Prelude.{◌≡◌};
ghost use Rattle.chain_status.specs.Answers as answers;

use crate::reports::ServerReport;

/// Why there is no connection to a server.
#[derive(Clone, Copy, PartialEq, Eq)]
pub enum NoConnection {
    /// Its host refuses it at once: nothing listens there.
    Ended,
    /// None was there in time.
    NotReached,
    /// No address was found for its host.
    UnknownHost,
}

/// Why who answers isn't the server that was asked.
#[derive(Clone, Copy, PartialEq, Eq)]
pub enum Stranger {
    /// It belongs to another chain.
    OtherChain,
    /// Its chain has another number of servers.
    OtherNumber,
    /// It is another server of the chain.
    OtherServer(u8),
    /// It speaks an older format.
    OlderFormat,
}

/// What came of asking a server.
#[derive(Clone, Copy)]
pub enum ServerAnswer {
    /// It said this of itself.
    Reported(ServerReport),
    /// It couldn't be asked.
    NoConnection(NoConnection),
    /// Somebody else answers there.
    Stranger(Stranger),
    /// It was asked, and didn't answer in time.
    NoAnswer,
}

/// What a report is an answer to, if server `asked` of a chain of so many servers was asked: it counts only if it is
/// of that one.
pub fn answer_by(asked: u8, servers: u8, report: ServerReport) -> ServerAnswer
    ensures { result ≡ answers.answer_by asked servers report }
{
    if report.servers != servers {
        ServerAnswer::Stranger(Stranger::OtherNumber)
    } else if report.id != asked {
        ServerAnswer::Stranger(Stranger::OtherServer(report.id))
    } else {
        ServerAnswer::Reported(report)
    }
}

// What the server said of itself, if it did.
pub(crate) fn report_in(answer: ServerAnswer) -> Option<ServerReport>
    ensures { result ≡ answers.report_in answer }
{
    match answer {
        ServerAnswer::Reported(report) => Some(report),
        ServerAnswer::NoConnection(_) | ServerAnswer::Stranger(_) | ServerAnswer::NoAnswer => None,
    }
}

// Those that the server knows to be gone.
pub(crate) fn view_in(answer: ServerAnswer) -> u16
    ensures { result ≡ answers.view_in answer }
{
    match answer {
        ServerAnswer::Reported(report) => report.view,
        ServerAnswer::NoConnection(_) | ServerAnswer::Stranger(_) | ServerAnswer::NoAnswer => 0,
    }
}
