//! The ends of servers of this process: notes of them, and where these are kept.
ghost use Rattle.std.specs.Prelude.{◌≡◌, ◌≤◌, ◌<◌, false, IfSome};
ghost use Rattle.node.specs.Views.{single, union};

use node::{SERVERS, View};
use rail::Worker;
use std::alloc::{AllocError, Global};
use std::marker::Model;
use std::sync::{Arc, OnceLock, Wait};

/// The note that the worker of a server has stopped, for good. It is made of a stopped worker alone. Contracts see the
/// server's id.
#[derive(Clone, Copy)]
pub struct Ended {
    id: u8,
}

impl Model for Ended {
    ghost use Rattle.std.specs.Prelude.{ℕ};

    ghost Value = { ℕ };

    ghost view = { λ ended. ended.id };

    ghost inverse = { λ n. record { id = n } };
}

impl Ended {
    /// The note of server `id`, whose worker this is and has stopped.
    pub(crate) fn of<R: Wait + Drop>(id: u8, _worker: &Worker<R>) -> Ended
        requires server { _worker.now.published.instance.start.id ≡ id }
        requires stopped { _worker.now.goes ≡ false }
        ensures { result ≡ id }
    {
        Ended { id }
    }

    /// The server.
    pub fn id(self) -> u8
        ensures { result ≡ self }
    {
        self.id
    }
}

/// Where the note of one server's end is kept, once there is one. Those who take the worker's turns put it there, and
/// the program's own threads look. Nobody waits for anybody here.
#[derive(Drop)]
pub struct Ending {
    note: Arc<OnceLock<Ended>, Global>,
}

impl Ending {
    /// Of a server that goes on.
    pub fn new(alloc: Global) -> Result<Ending, AllocError> {
        let note = Arc::new(alloc, OnceLock::new())?;
        Ok(Ending { note })
    }

    /// The same, for another thread. Refused only when out of memory.
    pub fn share(&self) -> Result<Ending, AllocError> {
        let note = Arc::try_clone(&self.note)?;
        Ok(Ending { note })
    }

    /// The server has ended. The first note stays.
    pub(crate) fn put(&self, ended: Ended) {
        let _ = self.note.try_set(ended);
    }

    /// The note, if the server has ended.
    pub fn get(&self) -> Option<Ended> {
        self.note.get().copied()
    }
}

/// Servers that have ended, as a set of notes. Contracts see a view.
#[derive(Clone, Copy)]
pub struct EndedSet {
    servers: View,
}

impl Model for EndedSet {
    ghost use Rattle.std.specs.Prelude.{ℕ};

    ghost Value = { ℕ };

    ghost view = { λ set. set.servers };

    ghost inverse = { λ n. record { servers = n } };
}

impl EndedSet {
    /// No server.
    pub fn new() -> EndedSet
        ensures { result ≡ 0 }
    {
        EndedSet {
            servers: View::empty(),
        }
    }

    /// Adds a note, if a chain can have its server.
    pub fn add(&mut self, ended: Ended)
        ensures chain { ended < 16 → self.new ≡ union self.old (single ended) }
        ensures beyond { 16 ≤ ended → self.new ≡ self.old }
    {
        if ended.id < SERVERS {
            self.servers = self.servers.union(View::single(ended.id));
        }
    }

    /// The note of server `id`, if it is among these.
    pub fn get(self, id: u8) -> Option<Ended>
        ensures { IfSome result (λ ended. ended ≡ id) }
    {
        if id < SERVERS && self.servers.has(id) {
            Some(Ended { id })
        } else {
            None
        }
    }
}
