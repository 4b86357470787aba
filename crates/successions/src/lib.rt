//! Successions: how masters and members agree on the next generation of a chain, and on when it opens.
//!
//! A table may outlive the chain that serves it: it goes on in a next *generation*, with other members. A generation is
//! a number, and who its members are (`Members`): for each server of the chain the process that is it. There must be
//! one next generation, though several masters act, messages come late or never, and whoever is there may end at any
//! moment. This crate is how that is agreed on, as machines that read nothing, send nothing and know no clock.
//!
//! - **Epochs.** Each master has an epoch of its own (`leases::next_epoch`). A member is in one, the highest that
//!   greeted it, and obeys orders of that one alone. In an epoch one thing is decided; who wants another takes a new
//!   epoch.
//! - **Sealing.** A member that is told to (`Order::Seal`) accepts who the next members are: it is *sealed*, and begins
//!   no update from then on. Reads go on. As long as nothing is decided it may be told to go on (`Order::Resume`).
//! - **Gone.** A member is gone if its process has ended, its lease is surely over (`leases`), or a person has seen to
//!   it: it does nothing any more. Only who is gone may be called so. Each report names whom its member knows to be
//!   gone, and they are gone for the master from then on.
//! - **Deciding.** It is decided who is next once each member that isn't gone has accepted it in the master's epoch,
//!   names just those as gone whom the master leaves out, and is quiet: nothing is on its way, and all have a table of
//!   one count of updates, all committed.
//! - **Adopting.** A later master doesn't know whether an earlier one has decided. It looks at what each member that
//!   isn't gone has accepted. If one has switched, that switch goes on. If one has accepted nothing, then nothing was
//!   decided, and the master is free. Else it adopts what was accepted in the highest epoch; unless the processes of
//!   that have all ended, and no member that isn't gone has switched: then that is void, and the master is free again.
//! - **Switching.** Once it is decided, members leave for the next generation for good (`Order::Switch`), and its
//!   processes start from the table. A member does so only if it is sealed, has accepted just these, and is quiet with
//!   a table of just so many updates: a guard of its own.
//! - **Opening.** The next generation begins updates (`Order::Open`) once each member before has told that it has
//!   switched, or is gone. So none of them shows what is old.
//!
//! A member has a `Succession`. It hears orders, and reports after each how it is. A master has a `Decision` in each of
//! its epochs: it hears reports, is told who is gone and which processes have ended, and then
//!
//! - `Decision::finish` goes on with a switch that was begun, `Decision::adopt` adopts what it has to, and, if it is
//!   free, `Decision::propose` proposes and `Decision::resume` has the members go on: one of the four, once;
//! - `Decision::decide` decides, once the members agree. Its caller waits with that until the next members hold the
//!   table;
//! - `Decision::order` and `Decision::opening` say what is to be sent, to members before and to next ones.
//!
//! **What is proved.** Each call's contract is what it makes of its machine, and when it refuses (`specs/Successions`,
//! `specs/Decisions`). The laws are about all of them together (`specs/Lives`): members, a master for each epoch, the
//! processes of the next generation, and all orders and reports that were ever sent, each of which may come at any
//! time, again and again or never, while anybody ends at any moment. The machines of the model are those of the code.
//!
//! - `one_successor`: whoever starts as a member of a next generation, and lives or was ever open, has the same members
//!   as each other one; and each member before that isn't gone has accepted just these, so that it begins no update.
//! - `opens_after_looks`: if a next generation was ever open, each member before has switched to it or is gone.
//!
//! Of void generations nothing is said: two may have been switched to, if all processes of one have ended before it was
//! open. A master that learns late who is gone is in the model: it counts reports of members that have ended. So it
//! must take whom a report names as gone for gone itself; without that an old report, in which nothing was accepted,
//! hides what was decided.
//!
//! **Odd numbers.** Epoch 0 is nobody's: members are in it before a master greets them, and obey none of its orders to
//! seal. A process has a number other than 0; a place with 0 is no server. From the number 2^64 - 1 on all reports of a
//! member share it. A generation of that number has no next one. A master that leaves out all members decides nothing.
//!
//! **What isn't proved.** That anything is ever decided: a member that is silent and not gone is waited for. That a
//! caller hands on what came, calls only those gone that are, sends what is due, and starts a process once, as a member
//! of one generation; that a table is handed over whole; and that a sealed member's threads begin no update before it
//! reports that it is idle.
#![tactic(auto)]

mod decisions;
mod laws;
mod members;
mod orders;
mod questions;
mod stages;
mod successions;
#[cfg(test)]
mod tests;

pub use decisions::Decision;
pub use laws::{one_successor, opens_after_looks};
pub use members::{Acceptance, MOST, Members};
pub use orders::{Order, Phase, Report, Standing};
pub use stages::Stage;
pub use successions::Succession;
