//! Who takes the turns of the servers' workers.

use in_process_links::ServerSet;
use rail::PortSet;

/// What came of a visit to a server.
#[derive(Clone, Copy, Debug)]
pub struct Visit {
    /// How many turns were taken.
    pub turns: usize,
    /// The servers where a turn is due then.
    pub due: ServerSet,
    /// The ports to which replies were put.
    pub replied: PortSet,
}

impl Visit {
    /// A visit at which nothing was done.
    pub fn nothing() -> Visit {
        Visit {
            turns: 0,
            due: ServerSet::new(),
            replied: PortSet::new(),
        }
    }
}

/// Has the turns of the servers of one process taken. Nobody waits for a worker: if another thread is at it, that
/// thread takes its turns.
///
/// Who has put a message into a server's inbox says so (`expect`), and then takes turns there, and at each server that
/// is answered as due; or it leaves them to the server's own thread.
pub trait TurnScheduler {
    /// A message was put into the inbox of server `id`, where turns will be taken.
    fn expect(&self, id: u8);

    /// Takes up to this many turns of server `id`, if no other thread is at it.
    fn take_turns(&self, id: u8, most: usize) -> Visit;

    /// The servers where a turn may be due.
    fn all_due(&self) -> ServerSet;

    /// Whether a call has its reply within some microseconds, as a rule: before a thread could sleep and be woken.
    fn answers_soon(&self) -> bool;

    /// Leaves it to these servers' own threads to take turns there.
    fn leave(&self, servers: ServerSet);
}
