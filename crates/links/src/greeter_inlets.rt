//! Which servers may greet a server.
ghost use Rattle.std.specs.Prelude.{◌≡◌, ◌≢◌, ◌<◌, ℕ, None, Some, IfOk, IfSome, is_some, length, map};
ghost use Rattle.links.specs.IncomingLinks.{first_of, link_for};
ghost use Rattle.links.specs.Waiting.{at_place};

use crate::incoming_links::WaitingLink;
use rail::Inlet;
use std::alloc::{AllocError, Global};

/// The links for the servers that may greet: one for each other server, as long as that one doesn't speak. One who
/// greets takes it, and puts it back once its connection has ended.
#[derive(Drop)]
pub struct GreeterInlets {
    servers: Vec<Option<WaitingLink>>,
}

impl GreeterInlets {
    ghost use Rattle.links.specs.GreeterInlets.{places, waiting, waiting_link};

    /// An inlet for each server by its id, and none for the server itself. Nobody has greeted.
    #[tactic(auto, using(crate::proofs::Waiting::first_at, crate::proofs::Waiting::first_inlet_at))]
    pub fn new(alloc: Global, inlets: Vec<Option<Inlet>>) -> Result<GreeterInlets, AllocError>
        ensures links { IfOk result (λ all. (j : ℕ) → waiting_link all j ≡ first_of (at_place inlets.items j)) }
        ensures inlets { IfOk result (λ all. (j : ℕ) → waiting all j ≡ at_place inlets.items j) }
    {
        let servers = first_links(alloc, inlets)?;
        Ok(GreeterInlets { servers })
    }

    /// Whether a link waits for the server of this id, and goes on with this start of it.
    pub fn goes_on(&self, id: u8, start: u64) -> bool
        ensures { result ≡ is_some (link_for start (waiting_link self.now id)) }
    {
        goes_on_at(self.servers.as_slice(), id, start)
    }

    /// The link for the server that greets with this id: none for the server itself, for one that speaks already, and
    /// for one that the chain hasn't.
    pub fn take(&mut self, id: u8) -> Option<WaitingLink>
        ensures given { result ≡ waiting_link self.old id }
        ensures once { waiting_link self.new id ≡ None }
        ensures others { (j : ℕ) → j ≢ id → waiting_link self.new j ≡ waiting_link self.old j }
        ensures places { places self.new ≡ places self.old }
        ensures placed { IfSome result (λ _. id < places self.old) }
    {
        take_at(&mut self.servers, id)
    }

    /// The link for the server of this id waits again. If the chain hasn't this server, nothing changes.
    pub fn put_back(&mut self, id: u8, link: WaitingLink)
        ensures waits { id < places self.old → waiting_link self.new id ≡ Some link }
        ensures others { (j : ℕ) → j ≢ id → waiting_link self.new j ≡ waiting_link self.old j }
        ensures places { places self.new ≡ places self.old }
    {
        put_at(&mut self.servers, id, link);
    }
}

// The links of servers that haven't greeted.
fn first_links(
    alloc: Global,
    inlets: Vec<Option<Inlet>>,
) -> Result<Vec<Option<WaitingLink>>, AllocError>
    ensures { IfOk result (λ links. links.items ≡ map first_of inlets.items) }
{
    inlets
        .into_iter()
        .map(|inlet| first_of(inlet))
        .collect(alloc)
}

// The link of a server that hasn't greeted, if there is an inlet for it.
fn first_of(inlet: Option<Inlet>) -> Option<WaitingLink>
    ensures { result ≡ first_of inlet }
{
    match inlet {
        Some(inlet) => Some(WaitingLink::new(inlet)),
        None => None,
    }
}

// Whether a link stands at a place, and goes on with this start.
#[tactic(auto, using(crate::proofs::Waiting::stands_at, crate::proofs::Waiting::none_beyond))]
fn goes_on_at(servers: &[Option<WaitingLink>], id: u8, start: u64) -> bool
    ensures { result ≡ is_some (link_for start (at_place servers.now id)) }
{
    let place = usize::from(id);
    if place < servers.len() {
        goes_on(&servers[place], start)
    } else {
        false
    }
}

// Whether there is a link, and it goes on with this start.
fn goes_on(link: &Option<WaitingLink>, start: u64) -> bool
    ensures { result ≡ is_some (link_for start link.now) }
{
    match link {
        Some(link) => link.goes_on(start),
        None => false,
    }
}

// What stands at a place, which is empty from then on.
#[tactic(auto, using(crate::proofs::Waiting::stands_at, crate::proofs::Waiting::empty_at, crate::proofs::Waiting::others_stay, crate::proofs::Waiting::none_beyond))]
fn take_at(servers: &mut Vec<Option<WaitingLink>>, id: u8) -> Option<WaitingLink>
    ensures given { result ≡ at_place servers.old.items id }
    ensures once { at_place servers.new.items id ≡ None }
    ensures others { (j : ℕ) → j ≢ id → at_place servers.new.items j ≡ at_place servers.old.items j }
    ensures places { length servers.new.items ≡ length servers.old.items }
    ensures placed { IfSome result (λ _. id < length servers.old.items) }
{
    let place = usize::from(id);
    if place < servers.len() {
        servers[place].take()
    } else {
        None
    }
}

// Puts a link at a place, if there is one.
#[tactic(auto, using(crate::proofs::Waiting::put_there, crate::proofs::Waiting::others_stay))]
fn put_at(servers: &mut Vec<Option<WaitingLink>>, id: u8, link: WaitingLink)
    ensures waits { id < length servers.old.items → at_place servers.new.items id ≡ Some link }
    ensures others { (j : ℕ) → j ≢ id → at_place servers.new.items j ≡ at_place servers.old.items j }
    ensures places { length servers.new.items ≡ length servers.old.items }
{
    let place = usize::from(id);
    if place < servers.len() {
        servers[place] = Some(link);
    } else {
        drop(link);
    }
}
