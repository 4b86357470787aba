//! Which serving thread a seat of a server is for.
ghost use Rattle.std.specs.Prelude.{◌≡◌, ◌<◌, ◌≤◌, ◌+◌, ◌-◌, ◌/◌, ◌%◌};
ghost use Rattle.io_threads.specs.declared.seat_shares.SeatDeal.TheVariants.{HalfToFirst, InTurn};

/// How the seats of a server are dealt out to its threads, beside the one that each thread has.
#[derive(Clone, Copy, Debug, PartialEq, Eq)]
pub enum SeatDeal {
    /// In turn, so that each thread has as many as another one.
    InTurn,
    /// Every second one to the first thread, and the others in turn to the other threads: for a server whose first
    /// thread gets the first connections.
    HalfToFirst,
}

/// Which thread each seat of a server is for, by its port. The first ports are the threads' own, one each, in their
/// order; the seats of the others are dealt.
#[derive(Clone, Copy, Debug, PartialEq, Eq)]
pub struct SeatShares {
    /// How many threads there are.
    pub threads: usize,
    /// How the seats are dealt.
    pub deal: SeatDeal,
}

impl SeatShares {
    /// The thread of the seat at this port.
    pub fn thread_of(&self, port: usize) -> usize
        ensures own { port < self.now.threads → result ≡ port }
        ensures in_turn { self.now.deal ≡ InTurn → 1 ≤ self.now.threads → self.now.threads ≤ port →
            result ≡ (port - self.now.threads) % self.now.threads }
        ensures first { self.now.deal ≡ HalfToFirst → self.now.threads ≤ port →
            (port - self.now.threads) % 2 ≡ 0 → result ≡ 0 }
        ensures others { self.now.deal ≡ HalfToFirst → 2 ≤ self.now.threads → self.now.threads ≤ port →
            (port - self.now.threads) % 2 ≡ 1 →
            result ≡ 1 + (port - self.now.threads) / 2 % (self.now.threads - 1) }
    {
        if port < self.threads {
            return port;
        }
        let rest = port - self.threads;
        match self.deal {
            SeatDeal::InTurn if self.threads != 0 => rest % self.threads,
            SeatDeal::HalfToFirst if self.threads > 1 && rest % 2 != 0 => {
                1 + rest / 2 % (self.threads - 1)
            }
            _ => 0,
        }
    }
}
