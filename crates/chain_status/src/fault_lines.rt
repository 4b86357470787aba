//! What is wrong, in words, with what to do about it.

use crate::answers::{NoConnection, Stranger};
use crate::faults::Fault;
use crate::texts::Numbers;
use std::fmt;
use std::fmt::Display;

impl Display for Fault {
    fn fmt<W: fmt::Write>(&self, f: &mut fmt::Formatter<W>) -> fmt::Result {
        match *self {
            Fault::NoneLeft => f.write_str("no server is left; start the chain anew"),
            Fault::NoneAnswers => {
                f.write_str("no server answers; look at --peers, --peer-port and its servers")
            }
            Fault::LastOne(i) => write!(
                f,
                "server {i} is the last one of the chain; its table ends with it"
            ),
            Fault::Gone(i) => write!(
                f,
                "server {i} is gone, and the chain goes on without it; to have it again, start the chain anew"
            ),
            Fault::NoConnection(i, why) => no_connection(f, i, why),
            Fault::Stranger(i, why) => stranger(f, i, why),
            Fault::NoAnswer(i) => write!(
                f,
                "server {i} does not answer; if it has failed, type gone {i}"
            ),
            Fault::Unaware(i, gone) => {
                let gone = Numbers(gone);
                write!(
                    f,
                    "server {i} does not know that these are gone: {gone}; type gone J again for each of them"
                )
            }
            Fault::Stalled(i, others) => {
                let others = Numbers(others);
                write!(
                    f,
                    "the link of server {i} to {others} stands still; if both run, mend the network, or call one gone"
                )
            }
            Fault::LeaseOver(i) => write!(
                f,
                "the lease of server {i} is over, so it answers nothing; see whether a master with --watch reaches it"
            ),
            Fault::Stuck(i) => write!(
                f,
                "the worker of server {i} takes nothing, though inputs wait; if it stays so, end it, and type gone {i}"
            ),
            Fault::MemoryFull(i) => write!(
                f,
                "server {i} refuses to store, since its items take the memory that they may; delete or flush items"
            ),
            Fault::MemoryHigh(i) => write!(
                f,
                "the items of server {i} take four fifths of the memory that they may, or more"
            ),
            Fault::ConnectionsFull(i) => write!(
                f,
                "server {i} has as many connections as it may, and refuses new ones; raise --connections"
            ),
            Fault::OtherVersion(i) => write!(
                f,
                "server {i} has another version than the first server that answers; start one version everywhere"
            ),
            Fault::StartedAnew(i) => write!(
                f,
                "server {i} was started anew since the last look; if all were, the table is empty"
            ),
        }
    }
}

// Why there is no connection to this server.
fn no_connection<W: fmt::Write>(
    f: &mut fmt::Formatter<W>,
    i: u8,
    why: NoConnection,
) -> fmt::Result {
    match why {
        NoConnection::Ended => write!(
            f,
            "server {i}: its process has ended, and updates wait; type gone {i}"
        ),
        NoConnection::NotReached => write!(
            f,
            "server {i} is not reached; it may live: make sure that it is dead, and type gone {i}"
        ),
        NoConnection::UnknownHost => write!(f, "unknown host of server {i}; look at --peers"),
    }
}

// Who answers in place of this server.
fn stranger<W: fmt::Write>(f: &mut fmt::Formatter<W>, i: u8, why: Stranger) -> fmt::Result {
    match why {
        Stranger::OtherChain => write!(
            f,
            "server {i} belongs to another chain; look at --chain, --peers and --peer-port"
        ),
        Stranger::OtherNumber => write!(
            f,
            "the chain of server {i} has another number of servers; look at --servers"
        ),
        Stranger::OtherServer(j) => write!(
            f,
            "in place of server {i} server {j} answers; look at --peers and --peer-port"
        ),
        Stranger::OlderFormat => write!(
            f,
            "server {i} speaks an older format; start one version everywhere"
        ),
    }
}
