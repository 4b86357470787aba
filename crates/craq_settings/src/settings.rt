//! What a server, or the master, of a chain in several processes is told.
ghost use Rattle.std.specs.Prelude.{◌≡◌, ◌↔◌, ◌<◌, ◌+◌, ◌*◌, true, length, map, replicate, IfOk, IfSome, IsSome};
ghost use Rattle.std.specs.Prelude.{string_bytes};
ghost use Rattle.craq_settings.specs.Hosts.{hosts_of, listed, texts};
ghost use Rattle.craq_settings.specs.Terms.{term_of};
ghost use Rattle.leases.specs.declared.paces.TheConstants.{MILLISECOND};

use command_line::{Hosts, MasterNumbers, ServerNumbers, UsageFault};
use leases::{MILLISECOND, Paces, Term};
use std::alloc::{AllocError, Global};
use table::Key;

/// What is printed if the id is that of no server of the chain.
const NO_SERVER: &str = "error: the id is not below the number of servers\n";

/// What is printed if the hosts aren't those of the servers.
const NO_HOSTS: &str = "error: --peers names not one host for each server\n";

/// What is printed if a server is to listen nowhere.
const NO_ADDRESS: &str = "error: --address names no host\n";

/// What is printed if the chain's name isn't one.
const NO_CHAIN: &str = "error: --chain names no chain: 1 to 250 bytes, none of them blank\n";

/// What is printed if a lease has no such term. No command line is refused so, since its words are tested before.
const NO_LEASE: &str = "error: --lease is not 1 to 3600 seconds\n";

/// What is printed if a master that watches is to call a server silent before the next beat.
const NO_AFTER: &str = "error: --after is not above --beat\n";

/// Which server of a chain runs, where it listens, and where the others are.
#[derive(Drop)]
pub struct ServerSettings {
    /// Its id, which is below the number of servers, and its numbers.
    pub numbers: ServerNumbers,
    /// The host at which it listens.
    pub address: String,
    /// The host of each server, by its id.
    pub hosts: Vec<String>,
    /// The chain's name.
    pub chain: Key,
    /// How long its lease runs; None: it has none, and isn't called gone for its silence.
    pub term: Option<Term>,
}

/// Whom a master tells.
#[derive(Drop)]
pub struct MasterSettings {
    /// How many servers there are, and where they listen.
    pub numbers: MasterNumbers,
    /// The host of each server, by its id.
    pub hosts: Vec<String>,
    /// The chain's name.
    pub chain: Key,
    /// How often it beats, and for how long a server that has a lease may be silent; None if it doesn't watch. By its
    /// beats it prolongs leases, and hears how the servers are. The silence of a server without a lease says nothing.
    pub beats: Option<Paces>,
}

impl ServerSettings {
    /// What these words tell a server. It is refused if the id is that of no server, its lease has no term, there isn't
    /// one host for each server, or the chain's name isn't one.
    pub fn new(
        alloc: Global,
        numbers: ServerNumbers,
        hosts: Hosts,
    ) -> Result<ServerSettings, UsageFault>
        ensures numbers { IfOk result (λ settings. settings.numbers ≡ numbers) }
        ensures address { IfOk result (λ settings. settings.address ≡ hosts.address) }
        ensures id { IfOk result (λ settings. settings.numbers.id < settings.numbers.servers) }
        ensures hosts { IfOk result (λ settings. length settings.hosts.items ≡ settings.numbers.servers) }
        ensures given { IfOk result (λ settings. texts settings.hosts.items ≡ hosts_of hosts numbers.servers) }
        ensures chain { IfOk result (λ settings. settings.chain ≡ string_bytes hosts.chain) }
        ensures term { IfOk result (λ settings. settings.term ≡ term_of numbers.lease) }
    {
        if numbers.id >= numbers.servers {
            return Err(usage(alloc, NO_SERVER));
        }
        let term = term_of(alloc, numbers.lease)?;
        let all = hosts_of(alloc, &hosts, numbers.servers)?;
        let chain = chain_of(alloc, &hosts)?;
        Ok(ServerSettings {
            numbers,
            address: hosts.address,
            hosts: all,
            chain,
            term,
        })
    }

    /// For how many nanoseconds a link to another server may take nothing, until its connection is opened anew.
    pub fn link_timeout(&self) -> u64
        ensures { result ≡ self.now.numbers.link_timeout * MILLISECOND }
    {
        u64::from(self.numbers.link_timeout) * MILLISECOND
    }
}

impl MasterSettings {
    /// What these words tell a master, which beats if it watches. It is refused if it watches and `--after` isn't above
    /// `--beat`, there isn't one host for each server, or the chain's name isn't one.
    pub fn new(
        alloc: Global,
        numbers: MasterNumbers,
        hosts: Hosts,
    ) -> Result<MasterSettings, UsageFault>
        ensures numbers { IfOk result (λ settings. settings.numbers ≡ numbers) }
        ensures hosts { IfOk result (λ settings. length settings.hosts.items ≡ settings.numbers.servers) }
        ensures given { IfOk result (λ settings. texts settings.hosts.items ≡ hosts_of hosts numbers.servers) }
        ensures chain { IfOk result (λ settings. settings.chain ≡ string_bytes hosts.chain) }
        ensures watches { IfOk result (λ settings. IsSome settings.beats ↔ (numbers.watch ≡ true)) }
        ensures beat { IfOk result
            (λ settings. IfSome settings.beats (λ paces. paces.beat ≡ numbers.beat * MILLISECOND)) }
        ensures after { IfOk result
            (λ settings. IfSome settings.beats (λ paces. paces.after ≡ numbers.after * MILLISECOND)) }
        ensures ordered { IfOk result (λ settings. numbers.watch ≡ true → numbers.beat < numbers.after) }
    {
        let beats = paces_of(alloc, numbers)?;
        let chain = chain_of(alloc, &hosts)?;
        let hosts = hosts_of(alloc, &hosts, numbers.servers)?;
        Ok(MasterSettings {
            numbers,
            hosts,
            chain,
            beats,
        })
    }
}

/// The port of server i, if this is the port of server 0.
pub fn port_of(first: u16, i: u8) -> u16
    ensures { first + i < 65536 → result ≡ first + i }
{
    first.wrapping_add(u16::from(i))
}

/// The host of server i; none of this chain has an empty one.
pub fn host_of(alloc: Global, settings: &MasterSettings, i: u8) -> Result<String, AllocError> {
    match settings.hosts.get(usize::from(i)) {
        Some(host) => String::from_str(alloc, host.as_str()),
        None => Ok(String::new(alloc)),
    }
}

// The term of a lease that runs for this many seconds, if there is one.
fn term_of(alloc: Global, lease: Option<u32>) -> Result<Option<Term>, UsageFault>
    ensures { IfOk result (λ term. term ≡ term_of lease) }
{
    match lease {
        None => Ok(None),
        Some(seconds) => match Term::of_seconds(u64::from(seconds)) {
            Some(term) => Ok(Some(term)),
            None => Err(usage(alloc, NO_LEASE)),
        },
    }
}

// How often a master of these numbers beats, and for how long a server may be silent, if it watches.
fn paces_of(alloc: Global, numbers: MasterNumbers) -> Result<Option<Paces>, UsageFault>
    ensures watches { IfOk result (λ beats. IsSome beats ↔ (numbers.watch ≡ true)) }
    ensures beat { IfOk result (λ beats. IfSome beats (λ paces. paces.beat ≡ numbers.beat * MILLISECOND)) }
    ensures after { IfOk result (λ beats. IfSome beats (λ paces. paces.after ≡ numbers.after * MILLISECOND)) }
    ensures ordered { IfOk result (λ beats. numbers.watch ≡ true → numbers.beat < numbers.after) }
{
    if !numbers.watch {
        return Ok(None);
    }
    match Paces::of_milliseconds(u64::from(numbers.beat), u64::from(numbers.after)) {
        Some(paces) => Ok(Some(paces)),
        None => Err(usage(alloc, NO_AFTER)),
    }
}

// The chain's name.
fn chain_of(alloc: Global, hosts: &Hosts) -> Result<Key, UsageFault>
    ensures { IfOk result (λ chain. chain ≡ string_bytes hosts.now.chain) }
{
    match Key::new(alloc, hosts.chain.as_bytes())? {
        Some(chain) => Ok(chain),
        None => Err(usage(alloc, NO_CHAIN)),
    }
}

// The host of each server: those of the list, else the address for each.
fn hosts_of(alloc: Global, hosts: &Hosts, servers: u8) -> Result<Vec<String>, UsageFault>
    ensures count { IfOk result (λ all. length all.items ≡ servers) }
    ensures given { IfOk result (λ all. texts all.items ≡ hosts_of hosts.now servers) }
{
    if hosts.address.is_empty() {
        return Err(usage(alloc, NO_ADDRESS));
    }
    let all = match &hosts.peers {
        Some(peers) => listed(alloc, peers.as_str())?,
        None => repeated(alloc, hosts.address.as_str(), servers)?,
    };
    if all.len() == usize::from(servers) && all.iter().all(|host| !host.is_empty()) {
        Ok(all)
    } else {
        Err(usage(alloc, NO_HOSTS))
    }
}

// The hosts of a list with commas between them.
fn listed(alloc: Global, peers: &str) -> Result<Vec<String>, AllocError>
    ensures { IfOk result (λ hosts. texts hosts.items ≡ listed peers.now) }
{
    let parts = parts_of(alloc, peers)?;
    copies_of(alloc, parts.as_slice())
}

// The parts of a list between its commas.
fn parts_of(alloc: Global, peers: &str) -> Result<Vec<&str>, AllocError>
    ensures { IfOk result (λ parts. map (λ part. part.now) parts.items ≡ listed peers.now) }
{
    peers.split(',').collect(alloc)
}

// Copies of these texts.
fn copies_of(alloc: Global, parts: &[&str]) -> Result<Vec<String>, AllocError>
    ensures { IfOk result (λ copies. texts copies.items ≡ map (λ part. part.now) parts.now) }
{
    let mut copies = Vec::new(alloc);
    for part in parts {
        copies.push(String::from_str(alloc, part)?)?;
    }
    Ok(copies)
}

// The same host for each server.
fn repeated(alloc: Global, address: &str, servers: u8) -> Result<Vec<String>, AllocError>
    ensures { IfOk result (λ hosts. texts hosts.items ≡ replicate servers address.now) }
{
    let mut hosts = Vec::new(alloc);
    for _ in 0..servers {
        hosts.push(String::from_str(alloc, address)?)?;
    }
    Ok(hosts)
}

fn usage(alloc: Global, text: &str) -> UsageFault {
    match String::from_str(alloc, text) {
        Ok(text) => UsageFault::Usage(text),
        Err(_) => UsageFault::Memory,
    }
}
