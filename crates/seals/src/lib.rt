//! Seals: when a member of a chain that is sealed begins nothing any more, and when nothing is on its way through the
//! chain.
//!
//! A chain's table goes on in a next generation (`successions`) once its members agree on it and are *quiet*: no update
//! is on its way between them, and all have one table. A member learns that it is sealed, and has to find out that it
//! is quiet, while its threads see that late, its peers are sealed earlier or later, and updates that were begun before
//! are still passed on, over links in order. This crate is a member's side of that, as a machine that reads nothing,
//! sends nothing and knows no clock, and a law about all of them together.
//!
//! - **Holding.** A member that is sealed begins no update (`Seal::may_begin`): updates of its clients wait unbegun.
//!   Reads go on. What its phase is, `successions` says (`Seal::follow`).
//! - **Own threads.** Each thread that takes clients' updates sees in its own time that it is to hold. It then sends
//!   its server a marker, behind all that it sent before. Once the server has taken the markers of all its threads
//!   (`Seal::hear_thread`), it has taken each update that they began.
//! - **Peers.** A member that has nothing unfinished puts a marker on its link to each peer that isn't gone by its view
//!   (`Seal::mark`, `Seal::is_peer`), behind all that it sent before. Whoever takes it has taken all that. A sealed
//!   member still passes on what others began: so a marker says how far its sender is (`Numbers`: whom it knows to be
//!   gone, its last number, its commit number), and whoever gets further sends another one, behind what it sent
//!   meanwhile.
//! - **Idle.** A member is idle if it has nothing unfinished, and the newest marker of each peer that isn't gone by its
//!   view names just its own numbers. It reports that with its numbers (`Seal::standing`). A member that is gone by its
//!   view is waited for no more; the view is one of the numbers, so all who wait must have learned of it.
//! - **Quiet.** A master takes the members for quiet if each that isn't left out has reported, in the master's epoch,
//!   that it is idle with the same numbers, and that just those left out are gone (`successions::Decision`). The
//!   reports needn't be of one instant.
//!
//! | what happens | what the seal makes of it |
//! |---|---|
//! | a seal of a later epoch | a new seal: no marker has come in it, and none was sent |
//! | the seal that it is in, once more | nothing |
//! | a seal that it has left, or an earlier one | it begins no update, and no marker counts: it is never idle in that |
//! | it goes on (`Phase::Serving`) | it begins updates. The seal is left for good |
//! | it has switched | the seal goes on |
//! | a marker of another seal or generation | nothing |
//! | a second marker of a peer in this seal | it counts in place of the first |
//! | a message behind a peer's marker | nothing. If its taker goes further by it, a new marker has to come |
//! | a marker from who is no peer | nothing that anybody waits for |
//!
//! **What is proved.** Each call's contract is what it makes of the machine (`specs/Seals`). The law
//! `idle_members_are_quiet` is about all members, their threads and links (`specs/Runs`; the machines of the model are
//! those of the code), with threads, links and notices as late as they like, any number of seals before, and anybody
//! who stops at any moment: *if each member that isn't left out has reported that it is idle with the same numbers in
//! the same seal, and is in that seal still and knows of nobody more who is gone, then no message of an update is on
//! its way between these members or from a thread to its server, and each of them has no update in work and just these
//! numbers.* By the law `quiet_members_stay_so` it stays like that, into whatever seals they are told of, as long as
//! none of them begins updates again or learns that another is gone. `members_become_idle` is a run in which they come
//! to that.
//!
//! **What the law takes for granted**, and who wires this has to give, are two rules of the chain, which stand in the
//! model as what a server may do (`Sends`, `IsMoved`): a server sends a message of an update (to number, forward or
//! acknowledge it) only while it is *active*, which is part of `Table::busy`; and once it was active it isn't any more
//! only when its numbers are greater than when it last wasn't. By the rules of `node`, a step that takes no own update,
//! widens no view, appends no entry and acknowledges none sends no such message; and an own update that was taken is
//! open until its entry is acknowledged, so the commit number rises with it. That is read there, and not proved of
//! `node` here. Further: that links and inlets keep their order; that a marker is put on its link before the server
//! takes anything more; that what comes from a member that is gone by the server's view changes nothing but that view;
//! that one thread sends under one number. That the tables are the same if the numbers are is the chain's own law
//! (`world`).
//!
//! The queries of reads and their answers aren't messages of an update. A member that waits for an answer is busy, so
//! it isn't idle; a tail may answer a query behind its marker.
//!
//! **Odd numbers.** Epoch 0 is no seal's. A member with more than 16 threads is never idle, and the marker of a thread
//! from number 16 on doesn't count.
//!
//! **What isn't proved.** That anybody is ever idle; and that a caller asks before each update, follows each phase,
//! hands on the markers that its server took, in the order in which that took them, sends what is due, and reports a
//! standing that was asked for after the phase beside it was followed. (`Succession::hear` reports the standing that it
//! is handed, which is one from before: after an order to seal the report to send is the one that `Succession::report`
//! makes next.) No program uses this crate yet. `tools/seal_runs` is a second model, with all runs of two members and
//! with wrong rules.
#![tactic(auto)]

mod holds;
mod laws;
mod markers;
mod seals;
#[cfg(test)]
mod tests;

pub use laws::{idle_members_are_quiet, members_become_idle, quiet_members_stay_so};
pub use markers::{Marker, Numbers, Table};
pub use seals::Seal;
