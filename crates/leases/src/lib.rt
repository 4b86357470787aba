//! Leases: a server that isn't heard may be called gone by a master alone, and no look that it answers is too old.
//!
//! Only a server that does nothing more may be called gone. A person can see to that. A program can't: silence says
//! nothing. So a server that is to be watched asks for a lease, and without it puts out nothing: no reply, no message,
//! and no answer to a read. What follows is how it gets one, and when it is surely over.
//!
//! - **Stamps.** Whatever a server answers to a master carries a stamp: what its own clock shows. A beat brings back
//!   the stamp that its master heard last, and the lease runs its term from that stamp on, by the server's clock. It
//!   doesn't run from when the beat came. A beat may lie in a socket for as long as the server is stopped, and no wait
//!   of a master would be long enough then; the law `each_rule_is_needed` says so. So beats that were sent and never
//!   answered need no thought: they bring back an old stamp, and end when it does. A stamp is as old as its way there
//!   and back and the pause before the beat, so a term has to be longer than two pauses and one such way.
//! - **The wait.** A master counts from when it heard the server for the last time: it reads its clock once it has the
//!   answer. When eleven tenths of the term and of a grain have passed since then, the lease is over by the server's
//!   clock too, if the master's is at most a tenth faster. A grain is a hundredth of a second, for clocks that move in
//!   steps. It sends no beat any more once it has told the server; then it tells the others.
//! - **The look.** A server reads its clock after a look, and answers if the lease holds by that reading. It may be
//!   stopped before, between or after: if it answers, the look was taken in time. When the bytes of the answer are
//!   written doesn't matter. For a reply or a message the clock is read when it was made up, before it is put out. What
//!   isn't put out may wait, and be put out by a later reading by which the lease holds again.
//! - **Epochs.** Several masters may watch, so each has an epoch: a number that no other master has (`next_epoch`). A
//!   server enters an epoch that isn't below its own, and answers who is gone as far as it knows. From then on it takes
//!   beats of this epoch alone, and so it does with notices that another server was silent. A beat may bring back a
//!   stamp only once the epoch is whole for that server: each other server has entered it and doesn't know that this
//!   one is gone, or this one knew it to be gone while its own lease held (`Roll`). So a master that another one has
//!   followed tells nobody who is in the later epoch, and a master that follows holds up nobody of whom others were
//!   told. A server that enters a later epoch keeps the lease that it has, so there need be no gap.
//! - **A process that is gone.** If a host refuses a new connection at once, then nothing listens there any more: the
//!   process has ended, and no lease has to run out.
//!
//! So there are machines that read no clock and send nothing; times are nanoseconds since a start, as each one's own
//! clock shows them. A server has a `Lease`, under a lock; its other threads ask a `SharedLease`. A master has a
//! `MasterMachine`: its `Claim` to an epoch, and for each server a `ServerRecord`, which is a `Watch` and a `Roll` in
//! that epoch.
//!
//! A `Lease` and a `MasterMachine` are handed a `Reading`: what was known (who is gone, or what a server told), and
//! what the clock showed after that. Only `Reading::after` makes one, so its number isn't made up, and is no older than
//! what was known. Each serves once. Which clock is read is up to who calls. So is that a master's is read as soon as a
//! report is there: a reading that comes late only makes the master later.
//!
//! **What a server does** is `Lease::hear`:
//!
//! - A greeting, `Order::Reign`: it enters the epoch, unless it is in a later one, and tells how it is.
//! - A beat of its own epoch that brings back a stamp: its lease runs its term from the stamp on, if that is longer. It
//!   tells how it is; so it does after any other beat, which changes nothing.
//! - A notice `Silent` of its own epoch: it takes the notice, and says that it has noted it. If it was silent itself,
//!   it ends. One of another epoch changes nothing: it tells how it is, and so the master sees that it was followed.
//! - A notice `Gone`: it takes the notice, whatever epoch it is in, since somebody has seen to it.
//! - Its lease runs out: it puts nothing out, and goes on otherwise. A beat after that is as any other: if the stamp
//!   that it brings back isn't older than the term, the lease holds again.
//!
//! **What a master does**, while its caller moves the bytes and has the clock read, is `MasterMachine`:
//!
//! - It starts: each server is greeted with epoch 0, which changes nothing there, and tells how it is.
//! - A server told how it is: `MasterMachine::told`. The claim is told, and then each server record. So a server that
//!   enters the epoch is watched from then on, the others' rolls know that it has entered, and who is named as gone
//!   gets no beat any more.
//! - `MasterMachine::claim`: the master takes an epoch if that is due (`Claim::is_due`), and each server record begins
//!   anew in it (`ServerRecord::begin`), with greetings.
//! - A server told of a later epoch, so that the master isn't reigning any more: each server record begins anew in
//!   epoch 0. It sends greetings of epoch 0, calls nobody silent, and takes a new epoch once it saw no lease prolonged
//!   for `--after`.
//! - A beat's time: `MasterMachine::next` says what is sent. A beat brings back a stamp only if the epoch is whole for
//!   its server.
//! - Silence for `--after`: `MasterMachine::next` has the server told, and the others once its lease is surely over. A
//!   master that was stopped itself sends a beat first, and counts the silence from that on. One that was cut off,
//!   since it heard nobody for long though its beats went out in time, calls no server silent before that has answered
//!   once more. So it never tells the last server that is left.
//! - A refused connection, or a person's word: `MasterMachine::lose`. Then `MasterMachine::next` has the others told
//!   that it is gone.
//!
//! Two masters never take one epoch, if their names differ. The one that started last reigns, if it has met each server
//! that isn't gone; the others stand by.
//!
//! **Odd numbers.**
//!
//! - A term is 1 to 3,600 seconds: `Term::of_seconds(0)` is none. Sums are at most 2^64 - 1, which a clock shows after
//!   584 years; from then on no lease holds. Nothing wraps.
//! - A server that has just started holds no lease, and puts nothing out, until the first beat that brings back a
//!   stamp: a pause after the epoch is whole, at most.
//! - A term that isn't longer than two pauses ends between two beats (`Paces::keep_up`): the server serves by fits.
//! - A server's clock that can't be read shows no number: nothing is put out. A master's: nothing happens.
//! - If the master's clock stands still, it sends no beats and calls nobody silent, so leases run out. If a server's
//!   stands still its lease never ends, and the premise is broken: it may show what is old.
//! - A lease without a term never ends: silence says nothing of that server, which is called gone after a refusal or by
//!   a person alone.
//! - A server that fails without a word while the master is cut off isn't called silent before it answers: a person
//!   calls it gone. The epoch stays as it is, and as whole as it was; a new one would be whole again only if no server
//!   has ended in the cut. With an `--after` of less than three beats a cut may pass for the silence of some servers.
//! - If the reigning master fails together with a server, and no lease holds any more when somebody says that this
//!   server is gone, then no epoch is whole ever again: nobody can know whether those two went on alone, and told each
//!   other that the rest is gone. So a chain's masters are best on machines without a server.
//!
//! The law `looks_before_tellings` is about instants, on both clocks. The other laws say that the machines do what it
//! asks of servers and masters: `leases_are_held_by_beats` of looks and beats, `tellings_are_by_rule` of notices,
//! `server_records_beat_in_whole_epochs` of when a beat may bring back a stamp. `machines_look_before_tellings` is the
//! law for the machines as they are. `cut_off_masters_wait` is about no look: it says that a chain outlives a cut.
//!
//! **Trusted**: that clocks never go back, and that the master's is at most a tenth faster than a server's, both also
//! while a machine sleeps or is moved (so a clock that counts these times too); that a process reads and writes when it
//! says so; and, of a refused connection, that the port is the server's and no other machine answers for it.
#![tactic(auto)]

mod claims;
mod epochs;
mod laws;
mod leases;
mod master_machines;
mod orders;
mod paces;
mod readings;
mod rolls;
mod server_records;
mod shared_leases;
mod terms;
mod watches;

pub use claims::Claim;
pub use epochs::next_epoch;
pub use laws::{
    cut_off_masters_wait, each_rule_is_needed, leases_are_held_by_beats, looks_before_tellings,
    machines_look_before_tellings, server_records_beat_in_whole_epochs, tellings_are_by_rule,
};
pub use leases::Lease;
pub use master_machines::MasterMachine;
pub use orders::{Answer, Order, Report};
pub use paces::{AFTER, BEAT, MILLISECOND, Paces, SLOWEST};
pub use readings::{Reading, nanoseconds_of};
pub use rolls::Roll;
pub use server_records::{Due, ServerRecord};
pub use shared_leases::{AnyEnd, SharedLease};
pub use terms::{GRAIN, LONGEST, SECOND, Term};
pub use watches::{Watch, WatchDue, WatchStanding};
