//! How many threads serve, and how many calls a server works on at a time.
ghost use Rattle.std.specs.Prelude.{◌≡◌, ◌≤◌, IfSome};

use io_threads::{SeatDeal, SeatShares, usual_threads};
use std::thread::Threads;

/// How many threads serve connections, and how many seats each server has, which are dealt out to these threads. The
/// type keeps that the threads are 1 to 16, the seats at most 64, and that each thread has a seat.
#[derive(Clone, Copy, Debug, PartialEq, Eq)]
pub struct Concurrency {
    /// How many threads serve.
    pub threads: usize,
    /// How many calls a server works on at a time.
    pub seats: usize,
    /// How they are dealt out.
    pub deal: SeatDeal,
    pub ghost some: { 1 ≤ threads },
    pub ghost dealt: { threads ≤ seats },
    pub ghost few: { threads ≤ 16 },
    pub ghost fits: { seats ≤ 64 },
}

impl Concurrency {
    /// This many threads, or as many as usual; and this many seats, but one for each thread at least, which are dealt
    /// out so.
    pub fn new<R: Threads>(rt: &R, threads: Option<u32>, seats: u8, deal: SeatDeal) -> Concurrency
        ensures threads { IfSome threads (λ wanted. (1 ≤ wanted) → (wanted ≤ 16) → result.threads ≡ wanted) }
        ensures seats { (seats ≤ 64) → (result.threads ≤ seats) → result.seats ≡ seats }
        ensures deal { result.deal ≡ deal }
    {
        let threads = match threads {
            Some(threads) => one_to_sixteen(threads),
            None => usual_threads(rt),
        };
        let seats = usize::from(seats.min(64));
        if seats < threads {
            return Concurrency {
                threads,
                seats: threads,
                deal,
            };
        }
        Concurrency {
            threads,
            seats,
            deal,
        }
    }

    /// Which thread each seat is for.
    pub fn shares(self) -> SeatShares
        ensures threads { result.threads ≡ self.threads }
        ensures deal { result.deal ≡ self.deal }
    {
        SeatShares {
            threads: self.threads,
            deal: self.deal,
        }
    }
}

// The number of 1 to 16 that is nearest.
fn one_to_sixteen(number: u32) -> usize
    ensures range { (1 ≤ result) × (result ≤ 16) }
    ensures same { (1 ≤ number) → (number ≤ 16) → result ≡ number }
{
    match usize::try_from(number) {
        Ok(0) => 1,
        Ok(number) if number <= 16 => number,
        _ => 16,
    }
}
