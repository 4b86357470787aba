//! The status of a chain as JSON, for programs.

use crate::answers::{NoConnection, ServerAnswer, Stranger};
use crate::faults::Fault;
use crate::rates::Rates;
use crate::reports::ServerReport;
use crate::roles::Role;
use crate::standings::Standing;
use crate::status::ChainStatus;
use serde::Serialize;
use serde_json::Error;
use std::alloc::{AllocError, Global};

/// The whole document.
#[derive(Drop, Serialize)]
struct StatusDocument<'a> {
    standing: Standing,
    exit_status: u8,
    servers: Vec<ServerDocument<'a>>,
    faults: Vec<FaultDocument>,
}

/// A server.
#[derive(Drop, Serialize)]
struct ServerDocument<'a> {
    id: u8,
    address: &'a str,
    role: Role,
    answer: &'static str,
    behind: Option<u64>,
    rates: Option<Rates>,
    report: Option<ServerReport>,
}

/// A fault.
#[derive(Drop, Serialize)]
struct FaultDocument {
    fault: &'static str,
    server: Option<u8>,
    standing: Standing,
    text: String,
}

impl ChainStatus<'_> {
    /// The status as a JSON text of one line, whose members docs/FORMATS.md has. Fails only if memory runs out.
    pub fn to_json(&self, alloc: Global) -> Result<String, Error> {
        let document = self.document(alloc)?;
        serde_json::to_string(alloc, &document)
    }

    // The document.
    fn document(&self, alloc: Global) -> Result<StatusDocument<'_>, AllocError> {
        let mut servers = Vec::new(alloc);
        for i in 0..self.look.servers() {
            servers.push(self.server(i))?;
        }
        let mut faults = Vec::new(alloc);
        for fault in &self.faults {
            faults.push(fault_document(alloc, fault)?)?;
        }
        Ok(StatusDocument {
            standing: self.standing,
            exit_status: self.standing.exit_status(),
            servers,
            faults,
        })
    }

    // What it says of a server.
    fn server(&self, i: u8) -> ServerDocument<'_> {
        ServerDocument {
            id: i,
            address: self.address(i),
            role: self.look.role(i),
            answer: answer_name(self.look.answer(i)),
            behind: self.look.behind(i),
            rates: self.look.rates(self.earlier, i),
            report: self.look.report(i),
        }
    }
}

// What it says of a fault.
fn fault_document(alloc: Global, fault: &Fault) -> Result<FaultDocument, AllocError> {
    Ok(FaultDocument {
        fault: fault_name(fault),
        server: fault.server(),
        standing: fault.standing(),
        text: format!(in alloc; "{fault}")?,
    })
}

// What came of asking a server.
fn answer_name(answer: Option<ServerAnswer>) -> &'static str {
    match answer {
        None => "not_asked",
        Some(ServerAnswer::Reported(_)) => "reported",
        Some(ServerAnswer::NoConnection(NoConnection::Ended)) => "ended",
        Some(ServerAnswer::NoConnection(NoConnection::NotReached)) => "not_reached",
        Some(ServerAnswer::NoConnection(NoConnection::UnknownHost)) => "unknown_host",
        Some(ServerAnswer::Stranger(Stranger::OtherChain)) => "other_chain",
        Some(ServerAnswer::Stranger(Stranger::OtherNumber)) => "other_number",
        Some(ServerAnswer::Stranger(Stranger::OtherServer(_))) => "other_server",
        Some(ServerAnswer::Stranger(Stranger::OlderFormat)) => "older_format",
        Some(ServerAnswer::NoAnswer) => "no_answer",
    }
}

// The name of a kind of faults.
fn fault_name(fault: &Fault) -> &'static str {
    match fault {
        Fault::NoneLeft => "none_left",
        Fault::NoneAnswers => "none_answers",
        Fault::LastOne(_) => "last_one",
        Fault::Gone(_) => "gone",
        Fault::NoConnection(_, _) => "no_connection",
        Fault::Stranger(_, _) => "stranger",
        Fault::NoAnswer(_) => "no_answer",
        Fault::Unaware(_, _) => "unaware",
        Fault::Stalled(_, _) => "stalled",
        Fault::LeaseOver(_) => "lease_over",
        Fault::Stuck(_) => "stuck",
        Fault::MemoryFull(_) => "memory_full",
        Fault::MemoryHigh(_) => "memory_high",
        Fault::ConnectionsFull(_) => "connections_full",
        Fault::OtherVersion(_) => "other_version",
        Fault::StartedAnew(_) => "started_anew",
    }
}
