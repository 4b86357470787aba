//! A thread for each of some callers: it accepts a client's connection, serves it whole, and accepts the next. So
//! clients are served over callers of any kind, each of which may wait. The program's own connections share few threads
//! instead (`io_threads`).
#![tactic(auto)]

mod seat_threads;

pub use seat_threads::serve_seats;
