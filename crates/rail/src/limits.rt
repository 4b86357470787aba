//! How a thread waits, and how much may stand in a seat's queue.

/// How often a thread looks for a message, and lets others run in between, before it sleeps. Sleeping and being woken
/// cost more than these looks.
pub const TRIES: usize = 10;

/// How many replies wait for one seat. A seat that takes each reply before its next call has one at a time.
pub const REPLIES: usize = 64;

/// How many calls are ever sent at one seat: more than come in a thousand years.
pub const CALLS: usize = 1 << 62;
