//! Local histories are runs: what each server, link, seat and reader did, by the contracts of the code, is a run of
//! moves of the running chain.
//!
//! A contract of the code speaks of one call on one object, and a rule of one table. The model of a running chain
//! (`interleavings`) speaks of moves that no thread sees half done. Here the first are put together, and give the
//! second.
//!
//! - **Events** (`specs/Events.antt`): one instant of one worker, link, sender, seat or reader. Beside each stands the
//!   function and the clause that say what it does to that object.
//! - **What events leave** (`Objects.antt`): folds to the states that the contracts see: `WorkerState`, `LinksState`,
//!   what a sender sent, what was put for a seat and taken there.
//! - **Local rules** (`LocalRules.antt`, `Turns.antt`): each inbox and each queue keeps its rule, a worker's events are
//!   turns (`IsTurn`), a look finds what stands, what comes out of a link was put on it, a notice tells of a server
//!   that has stopped. Each is a contract of the code, or says that two tables' rules hold at one instant.
//! - **What stands in the model** (`Standing.antt`): `StandsForChain`, and the moves that an event is.
//! - **One order** (`CallOrders.antt`): of the calls of the events, in time by their places.
//!
//! `local_histories_are_runs` says that events which are locally right are a run, and have one order. It is put
//! together from three laws: a worker's turns are steps (`turns_are_steps`), so each event may follow those before it
//! (`rules_make_events_follow`, by `Following.antt`), and such events are moves (`events_are_moves`,
//! `following_events_are_runs`). No program uses this crate: it is definitions and laws.
#![tactic(auto)]

mod laws;
pub mod worked;

pub use laws::{
    events_are_moves, following_events_are_runs, histories_in_steps_are_runs,
    local_histories_are_runs, rules_make_events_follow, turns_are_steps,
};
