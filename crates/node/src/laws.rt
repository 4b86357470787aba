//! Laws: facts about the definitions of `specs/`, as contracts of functions that do nothing.

mod actions;
mod looks;
mod replies;
mod rules;
mod runs;
mod steps;
mod views;

pub use actions::steps_are_actions;
pub use looks::looks_show_the_newest;
pub use replies::{own_ports_alone, replies_close_calls};
pub use rules::{joins_keep_servers_sound, open_calls_are_ordered, rules_keep_servers_sound};
pub use runs::{runs_are_lawful, runs_go_on};
pub use steps::steps_are_lawful;
pub use views::{neighbors_are_nearest, views_are_sets, views_stay_below};
