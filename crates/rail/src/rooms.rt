//! How many messages may stand in an inbox.
ghost use Rattle.std.specs.Prelude.{◌≡◌, ◌≤◌, ◌<◌, ◌*◌};

/// How many messages an inbox has room for, which is one at least. Who sends waits while it is full.
#[derive(Clone, Copy, Debug, PartialEq, Eq)]
pub struct Room {
    pub messages: usize,
    pub ghost some: { 1 ≤ messages },
}

impl Room {
    /// The least: one message.
    pub fn least() -> Room
        ensures { result.messages ≡ 1 }
    {
        Room { messages: 1 }
    }

    /// The room of each inbox in a chain of this many servers, each with this many seats, 64 at most: 128 messages for
    /// each server with up to 16 seats, else 512, which is 8 at least for each call that may be open in the chain. With
    /// fewer than 4 for each call its workers may wait on each other for ever, each to put a message into the other's
    /// full inbox. It isn't much more than that, since each message takes the next place of a ring, and a ring that
    /// stays in the processor's near memory costs less.
    pub fn of_chain(servers: usize, seats: usize) -> Room
        requires { (1 ≤ servers) × (servers ≤ 16) }
        ensures few { seats ≤ 16 → result.messages ≡ 128 * servers }
        ensures many { 16 < seats → result.messages ≡ 512 * servers }
    {
        if seats <= 16 {
            Room {
                messages: 128 * servers,
            }
        } else {
            Room {
                messages: 512 * servers,
            }
        }
    }
}
