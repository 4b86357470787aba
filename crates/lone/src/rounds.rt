//! Rounds: requests that are fed at once, and answered one after another.
ghost use Rattle.std.specs.Prelude.{◌≡◌, OnOk, None};

use crate::loads::{Kind, Load, ROUND, gets, sets};
use proto::{ProtoFault, Session, Step};
use std::alloc::{AllocError, Global};
use table::{Table, TableFault};
use thiserror::Error;

/// Why a load isn't served to its end.
#[derive(Debug, Error, Drop)]
pub enum LoadFault {
    /// No memory for the requests.
    #[error("out of memory")]
    Memory(#[from] AllocError),
    /// The session refused a piece, or a turn.
    #[error("session: {0}")]
    Session(#[from] ProtoFault),
    /// The table refused a call.
    #[error("table: {0}")]
    Table(#[from] TableFault),
    /// A fault stood in a request's place, or a request wasn't whole.
    #[error("a request was not read as a call")]
    Unread,
}

/// Serves all rounds, and gives the number of bytes that were written.
pub fn serve(alloc: Global, load: &Load) -> Result<u64, LoadFault> {
    let first = sets(alloc, load.size)?;
    let later = requests(alloc, load)?;
    let mut session = Session::new(alloc);
    let mut table = Table::new(alloc);
    serve_all(
        &mut session,
        &mut table,
        first.as_slice(),
        later.as_slice(),
        load.rounds,
    )
}

// The requests of each round after the first.
fn requests(alloc: Global, load: &Load) -> Result<Vec<u8>, AllocError> {
    match load.kind {
        Kind::Sets => sets(alloc, load.size),
        Kind::Gets => gets(alloc),
    }
}

// The first round, and the later ones: how many bytes they wrote.
fn serve_all(
    session: &mut Session,
    table: &mut Table,
    first: &[u8],
    later: &[u8],
    rounds: u32,
) -> Result<u64, LoadFault>
    requires { session.old.asked ≡ None }
{
    let mut written = round(session, table, first)?;
    for _ in 0..rounds {
        written = written.wrapping_add(round(session, table, later)?);
    }
    Ok(written)
}

// One round: how many bytes it wrote.
fn round(session: &mut Session, table: &mut Table, bytes: &[u8]) -> Result<u64, LoadFault>
    requires { session.old.asked ≡ None }
    ensures { OnOk result (session.new.asked ≡ None) }
{
    session.feed(bytes)?;
    for _ in 0..ROUND {
        answer(session, table)?;
    }
    let written = session.out().len();
    session.taken(written);
    Ok(written as u64)
}

// The next request, answered.
fn answer(session: &mut Session, table: &mut Table) -> Result<(), LoadFault>
    requires { session.old.asked ≡ None }
    ensures { OnOk result (session.new.asked ≡ None) }
{
    let Step::Call(target, op) = session.next()? else {
        return Err(LoadFault::Unread);
    };
    let called = table.call(&target, &op);
    drop(target);
    drop(op);
    session.answer(&called?)?;
    Ok(())
}
