//! What a master decides: machines and rules that read no clock, send nothing and start no thread. The threads of
//! `masters` hand them what came and what a clock showed, and do what they answer.
//!
//! **Of one server**, in the thread that has the connection to it:
//!
//! - What came of opening a connection, `Opening`, is for the watch an `Observation` (`observation_of`), and for a
//!   request an `Answer` (`answer_of`). A `Reach` knows which start of the server was met (`enter`): another one is told
//!   only of itself (`may_go`).
//! - `Reach::see` says what is new of what the watch sees. The server is called gone exactly if it was reached and its
//!   process has ended: nothing listens at its port, or another start of it does. That it isn't reached is told once.
//! - `pause_before` says how long the thread waits before it connects again.
//! - `Waits` are the requests that wait for the server's answer. `take_answered` takes the first one that a `Cause`
//!   answers: what the server said, that its time is over, that the second connection has ended, or that none was opened
//!   to the same start. `unwritten` is the order that is written next, to each connection once.
//! - `frame_of`, `report_of` and `incoming_of` say how orders go out as frames, and what frames say.
//!
//! **Of all of them**, in the thread that decides:
//!
//! - `Knowledge` has the servers' starts, and who has failed as far as each one said.
//! - A decision is made of `Facts` by `decided_by_news`, `decided_by_due` or `decided_by_lack`. Nothing else makes a
//!   `Notice`, or what is sent to one server. It has its grounds (`HasGrounds` in `specs/Decisions.antt`): nobody is
//!   called gone because a connection has ended, or since a server can't be reached.
//! - `requests_of_notice` says of which servers it is wanted that they note a notice, and for how long each is waited
//!   for; `looks_first`, whether the one that a line calls gone is asked before.
//! - `Rounds` are what is wanted and waited for. A round is over once each that was asked has answered (`take_done`);
//!   the answer of the server that the notice names doesn't count. `done_in`, `silent_in` and `refusal_in` say what came
//!   of it.
//! - `Beats` has the `leases::MasterMachine`, which decides of leases: when one is surely over, when an epoch is taken.
//!   It also has what a person is told once: of leases, of whom nobody hears, of a master that stood still.
//! - `StalledLinks` has which links between servers stand still, by whose word, and what a person was told of each.
//!   `end_to_go` says which end of one is to be called gone, `first_to_go` which server of all, one at a time. `Leaving`
//!   has whose answers the master that reigns passes over for that. So that server is silent for the master machine,
//!   which decides as of any other one that is: nobody is called gone because a link stands still.
//! - `ToldSteps` has of which servers that are gone each step was told; `Presence`, who answers; `warning_of`, what a
//!   person should know before a server is called gone.
//!
//! **What is proved**: each public function's answer and the state that it leaves, as an equation or for each server;
//! that no decision is made without its grounds. Times are milliseconds since the master began, and in `Beats`
//! nanoseconds of its clock. That the threads of `masters` hand over what came, and do what is decided, is read.
#![tactic(auto)]

mod attendance;
mod beats;
mod decisions;
mod faults;
mod incoming;
mod knowledge;
mod leaving;
mod link_ends;
mod names;
mod news;
mod notices;
mod openings;
mod orders;
mod presence;
mod reaches;
mod reconnecting;
mod rounds;
mod server_sets;
mod stalled_links;
mod standings;
mod steps;
mod tasks;
mod waits;

pub use beats::{Beats, LONGEST};
pub use decisions::{
    Decision, Facts, Notice, Sending, decided_by_due, decided_by_lack, decided_by_news,
};
pub use faults::MasterFault;
pub use incoming::{Incoming, incoming_of};
pub use knowledge::Knowledge;
pub use leaving::Leaving;
pub use link_ends::{end_to_go, first_to_go};
pub use names::name_of;
pub use news::{Answered, News};
pub use notices::{Answer, answer_at, done_in, refusal_in, silent_in};
pub use openings::{Opening, answer_of, may_go, observation_of};
pub use orders::{frame_of, named_in, report_of};
pub use presence::{Presence, Warning, pace_of, warning_of};
pub use reaches::Reach;
pub use reconnecting::pause_before;
pub use rounds::{Matter, Round, Rounds};
pub use server_sets::only_one;
pub use stalled_links::{LinkNews, StalledLinks};
pub use standings::Observation;
pub use steps::{Step, ToldSteps, step_of};
pub use tasks::{MOMENT, Request, Task, looks_first, requests_of_notice};
pub use waits::{Cause, Reply, Waiting, Waits};
