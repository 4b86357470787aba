//! The running chain: moves of its threads in any order, and one order of calls that explains each reply.
#![tactic(auto)]

mod laws;
mod leased_servers;
mod starts;
pub mod worked;
pub mod worked_leases;
pub mod worked_starts;

pub use laws::{
    answered_calls_are_published, asked_calls_are_spelled, calls_from_ports_stay_in_order,
    calls_may_have_any_free_port, clients_see_one_table, every_run_is_linearizable,
    no_call_is_forgotten, pipelining_clients_see_one_table, ports_are_names, ports_may_have_queues,
    rows_are_published_in_turn, seats_may_have_own_ports, served_calls_may_have_any_free_port,
    served_seats_may_have_own_ports, without_refusals_all_is_replied,
};
pub use leased_servers::{
    clients_of_leased_servers_see_one_table, leased_runs_forget_no_call,
    leased_runs_have_one_order, leased_servers_are_stopped,
};
pub use starts::{
    clients_see_one_table_from_a_start, every_life_has_one_order, held_tables_are_reached,
    restored_chains_are_reached, restored_chains_forget_no_call, restored_runs_are_linearizable,
    tables_are_reached,
};
