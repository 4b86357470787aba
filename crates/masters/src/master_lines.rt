//! What a master tells of servers that don't do what they are asked, each time in one line.

use craq_settings::{MasterSettings, port_of};
use ends::Sink;
use leases::Order;
use lines::{text, text_of};
use master_decisions::{Answer, MasterFault, answer_at, done_in, named_in, only_one, silent_in};
use node::{SERVERS, View};
use std::fmt;
use std::fmt::Display;
use wire::Reason;

/// What to look at if no server answers.
const LOOK: &str = "look at --peers, --peer-port and its servers";

/// What to do about a server that was started anew.
const ANEW: &str = "if all servers were started anew, start the master anew";

/// What to do about a lease that is too short.
const SHORT: &str = "give it a longer --lease, or this master a shorter --beat";

// The numbers of servers, with commas between them.
#[derive(Clone, Copy)]
struct Numbers(View);

impl Display for Numbers {
    fn fmt<W: fmt::Write>(&self, f: &mut fmt::Formatter<W>) -> fmt::Result {
        let mut between = "";
        for i in 0..SERVERS {
            if self.0.has(i) {
                write!(f, "{between}{i}")?;
                between = ",";
            }
        }
        Ok(())
    }
}

/// Why the master ends.
pub(crate) fn tell_fault<X: Sink>(errors: &mut X, settings: &MasterSettings, fault: MasterFault) {
    let _ = match fault {
        MasterFault::Memory => writeln!(text(errors), "craq: out of memory"),
        MasterFault::Run => writeln!(text(errors), "craq: run failed"),
        MasterFault::NoServer => writeln!(
            text(errors),
            "craq: no server is left; start the chain anew, and then this master"
        ),
        MasterFault::Refused(i, reason) => {
            let (host, port) = place_of(settings, i);
            let said = write!(
                text(errors),
                "craq: server {i} at {host} port {port} refuses this master: "
            );
            say_reason(errors, settings, reason);
            said
        }
    };
}

/// Who didn't answer when the master connected, but those that are known to have failed.
pub(crate) fn tell_unmet<X: Sink>(
    errors: &mut X,
    settings: &MasterSettings,
    answers: &[Answer],
    gone: View,
) {
    for i in 0..SERVERS {
        if let Answer::NoHost = answer_at(answers, i) {
            tell_host(errors, settings, i);
        }
    }
    let unmet = silent_in(answers, gone);
    if unmet.bits() != 0 {
        tell_silent_at_start(errors, unmet, done_in(answers) > 0);
    }
}

// These servers didn't answer when the master connected; some other one did, or none.
fn tell_silent_at_start<X: Sink>(errors: &mut X, unmet: View, some_answer: bool) {
    let mut line = text(errors);
    let numbers = Numbers(unmet);
    let _ = match only_one(unmet) {
        _ if !some_answer => writeln!(
            line,
            "craq: no server answers; if the chain runs, {LOOK}; the master goes on"
        ),
        Some(i) => writeln!(
            line,
            "craq: server {i} does not answer; if it has failed, type gone {i}"
        ),
        None => writeln!(
            line,
            "craq: servers {numbers} do not answer; for each that has failed, type gone and its number"
        ),
    };
}

/// Who hasn't noted that a server has failed, as the notice says, or was silent until its lease was over.
pub(crate) fn tell_unnoted<X: Sink>(
    errors: &mut X,
    settings: &MasterSettings,
    answers: &[Answer],
    order: Order,
) {
    if let Some(j) = named_in(order) {
        for i in 0..SERVERS {
            tell_untold(errors, settings, i, answer_at(answers, i), j);
        }
        tell_silent(errors, silent_in(answers, View::empty()), j);
    }
}

// That server i wasn't told that server j has failed, if it refuses the master or was started anew.
fn tell_untold<X: Sink>(errors: &mut X, settings: &MasterSettings, i: u8, answer: Answer, j: u8) {
    match answer {
        Answer::NoHost => tell_host(errors, settings, i),
        Answer::Refused(reason) => {
            say_untold(errors, settings, i, j);
            let _ = write!(text(errors), "it refuses this master: ");
            say_reason(errors, settings, reason);
        }
        Answer::Anew => {
            say_untold(errors, settings, i, j);
            let _ = writeln!(
                text(errors),
                "it was started anew; if the chain goes on without it, end it and type gone {i}; {ANEW}"
            );
        }
        Answer::Unasked | Answer::Done | Answer::Silent | Answer::Untaken => {}
    }
}

// These servers gave no answer to the notice that server j has failed.
fn tell_silent<X: Sink>(errors: &mut X, silent: View, j: u8) {
    if silent.bits() == 0 {
        return;
    }
    let (word, them) = match only_one(silent) {
        Some(_) => ("server", "it"),
        None => ("servers", "them"),
    };
    let numbers = Numbers(silent);
    let _ = write!(
        text(errors),
        "craq: {word} {numbers} did not answer that server {j} is gone: "
    );
    let _ = writeln!(text(errors), "look at {them}, and type gone {j} again");
}

/// The lease of server `i` is too short for the master's beats.
pub(crate) fn tell_short_term<X: Sink>(errors: &mut X, i: u8) {
    let _ = writeln!(
        text(errors),
        "craq: the lease of server {i} is not longer than two beats, so it serves by fits; {SHORT}"
    );
}

/// A line of the input says of server `j`, which still answers, that it is gone.
pub(crate) fn tell_living<X: Sink>(errors: &mut X, j: u8) {
    let _ = writeln!(
        text(errors),
        "craq: server {j} still answers; it is told that it is gone, and ends"
    );
}

/// A line of the input says of server `j`, which is the last one, that it is gone.
pub(crate) fn tell_last<X: Sink>(errors: &mut X, j: u8) {
    let _ = writeln!(
        text(errors),
        "craq: server {j} is the last one of the chain; its table ends with it"
    );
}

// The host of server i has no address.
fn tell_host<X: Sink>(errors: &mut X, settings: &MasterSettings, i: u8) {
    let (host, _) = place_of(settings, i);
    let _ = writeln!(text(errors), "craq: unknown host {host} of server {i}");
}

// The beginning of a line on server i, which wasn't told that server j has failed.
fn say_untold<X: Sink>(errors: &mut X, settings: &MasterSettings, i: u8, j: u8) {
    let (host, port) = place_of(settings, i);
    let _ = write!(
        text(errors),
        "craq: server {i} at {host} port {port} was not told that server {j} is gone: "
    );
}

// The end of a line on a server that refuses the master.
fn say_reason<X: Sink>(errors: &mut X, settings: &MasterSettings, reason: Reason) {
    let (servers, chain) = (settings.numbers.servers, text_of(settings.chain.bytes()));
    let mut line = text(errors);
    let _ = match reason {
        Reason::Servers => writeln!(
            line,
            "it has another number of servers than {servers}; give --servers as the chain has it"
        ),
        Reason::Chain => writeln!(
            line,
            "it belongs to another chain than {chain}; give --chain as the chain has it"
        ),
        Reason::Format => writeln!(
            line,
            "it speaks another format; use one version of craq for all"
        ),
        Reason::Taken | Reason::Gone => writeln!(
            line,
            "it takes it for a server; look at what listens there"
        ),
    };
}

// The host of server i, and its port for masters.
fn place_of(settings: &MasterSettings, i: u8) -> (&str, u16) {
    let host = match settings.hosts.get(usize::from(i)) {
        Some(host) => host.as_str(),
        None => "",
    };
    (host, port_of(settings.numbers.peer_port, i))
}
