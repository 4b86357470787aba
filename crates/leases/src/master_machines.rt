//! The master's side: all that it decides.
ghost use Rattle.std.specs.Prelude.{◌≡◌, ◌<◌, ◌≤◌, ◌+◌, ◌%◌, ◌^◌, true, length, slice_set, IfOk, IfSome, IfNone};
ghost use Rattle.leases.specs.Sets.{has_all};
ghost use Rattle.leases.specs.Watching.{is_watched};
ghost use Rattle.leases.specs.ServerRecords.{lost};
ghost use Rattle.leases.specs.Claims.{is_reigning};
ghost use Rattle.leases.specs.MasterMachines.{
  all_of,
  others_of,
  unmet_below,
  started,
  server_record,
  all_heard,
  all_begun,
  heard_by,
};
ghost use Rattle.leases.specs.MasterMachines.{
  is_followed,
  is_followed_by,
  stood_down,
  told,
  may_claim,
  epoch_taken,
  given_up,
};
ghost use Rattle.leases.specs.MasterMachines.{all_spared, patience_of, is_late, is_cut_off, sparing, attended};
ghost use Rattle.leases.specs.MasterMachines.{due_at, asked_at, after_asking};

use crate::claims::Claim;
use crate::orders::Report;
use crate::paces::Paces;
use crate::readings::Reading;
use crate::server_records::{Due, ServerRecord, bit_of};
use std::alloc::{AllocError, Global};
use std::marker::Model;

/// All that a master decides: which epoch is its own, and what is due for each server. Who has it hands it what servers
/// tell and readings of the clock, and sends what is due. Times are nanoseconds of the master's own clock, which never
/// goes back. They come as readings alone, so none is made up.
#[derive(Drop)]
pub struct MasterMachine {
    claim: Claim,
    // One for each server, by its id.
    server_records: Vec<ServerRecord>,
    // All servers: server i is the bit of value 2^i.
    chain: u16,
    // Those that told how they are, or are gone.
    met: u16,
    // If nobody was heard for so long, though beats went out in time, the master is cut off.
    patience: u64,
    // When anybody that wasn't called silent was heard for the last time, or the master was late itself.
    heard: u64,
    // When it asked for the last time what is due.
    asked: u64,
}

impl Model for MasterMachine {
    ghost use Rattle.leases.specs.MasterMachines.{MasterMachineState};

    ghost Value = { MasterMachineState };

    ghost view = { λ m. record {
      claim = m.claim;
      server_records = m.server_records.items;
      chain = m.chain;
      met = m.met;
      patience = m.patience;
      heard = m.heard;
      asked = m.asked;
    } };
}

impl MasterMachine {
    /// A master of this name that has just started, in a chain of n servers, by this reading of its clock. Nothing is
    /// known of the servers, and it has no epoch. No two masters have the same name. Fails only if memory runs out.
    pub fn new(
        alloc: Global,
        name: u32,
        servers: u8,
        paces: Paces,
        reading: Reading<()>,
    ) -> Result<MasterMachine, AllocError>
        requires chain { servers ≤ 16 }
        ensures { IfOk result (λ master_machine.
            master_machine ≡ started name servers paces.beat paces.after reading.shown) }
    {
        let now = reading.shown();
        let server_records = new_server_records(alloc, servers, paces)?;
        Ok(MasterMachine {
            claim: Claim::new(name, paces, now),
            server_records,
            chain: all_of(servers),
            met: 0,
            patience: patience_of(paces),
            heard: now,
            asked: now,
        })
    }

    /// A server told how it is, and then the clock was read. Each server record hears it, so they hear all that
    /// servers tell in the order in which it came. If the master reigned before and doesn't any more, each server
    /// record begins anew without an epoch; the answer says whether that is so. If nobody was heard for long before,
    /// though beats went out in time, then the master was cut off, and a server isn't called silent before it answers
    /// once more.
    pub fn told(&mut self, from: u8, reading: Reading<Report>) -> bool
        requires server { from < 16 }
        ensures state { self.new ≡ told self.old from reading.known reading.shown }
        ensures followed { result ≡
            is_followed_by (sparing self.old reading.shown) from reading.known reading.shown }
    {
        let report = reading.known();
        let now = reading.shown();
        self.spare_if_cut_off(now);
        let reigned = self.is_reigning();
        self.hear(from, &report, now);
        self.stand_down(reigned)
    }

    // Whether its epoch is the last one, as far as it knows.
    fn is_reigning(&self) -> bool
        ensures { result ≡ is_reigning self.now.claim }
    {
        self.claim.is_reigning()
    }

    // A server told how it is. The claim learns it by the end of the server's lease that was known before.
    fn hear(&mut self, from: u8, report: &Report, now: u64)
        requires server { from < 16 }
        ensures { self.new ≡ heard_by self.old from report.now now }
    {
        let last = end_of(self.server_records.as_slice(), usize::from(from));
        let counts = counts_as_heard(self.server_records.as_slice(), usize::from(from));
        self.claim.informed(report, last, now);
        hear_all(self.server_records.as_mut_slice(), from, report, now);
        self.met |= bit_of(from) | report.gone;
        if counts {
            self.heard = self.heard.max(now);
        }
    }

    // Once the master is cut off no server is called silent before it answers once more.
    fn spare_if_cut_off(&mut self, now: u64)
        ensures { self.new ≡ sparing self.old now }
    {
        if self.is_cut_off(now) {
            spare_all(self.server_records.as_mut_slice());
        }
    }

    // Whether nobody was heard for too long, though beats went out in time.
    fn is_cut_off(&self, now: u64) -> bool
        ensures { result ≡ is_cut_off self.now now }
    {
        self.patience <= now.saturating_sub(self.heard) && !self.is_late(now)
    }

    // Whether it asked too long ago what is due, so that beats went out too late.
    fn is_late(&self, now: u64) -> bool
        ensures { result ≡ is_late self.now now }
    {
        self.patience <= now.saturating_sub(self.asked)
    }

    // If it reigned before, and doesn't now, each server record begins anew without an epoch. It tells whether that is
    // so.
    fn stand_down(&mut self, reigned: bool) -> bool
        ensures state { self.new ≡ stood_down self.old (is_followed reigned self.old.claim) }
        ensures followed { result ≡ is_followed reigned self.old.claim }
    {
        if !reigned || self.is_reigning() {
            return false;
        }
        begin_all(self.server_records.as_mut_slice(), 0);
        true
    }

    /// Takes a new epoch if it is to by this reading: then each server record begins anew in it. None if it isn't to,
    /// or if there is no such number below 2^64; then nothing changes.
    pub fn claim(&mut self, reading: Reading<()>) -> Option<u64>
        ensures due { IfSome result (λ epoch. may_claim self.old reading.shown ≡ true) }
        ensures above { IfSome result (λ epoch. self.old.claim.highest < epoch) }
        ensures own { IfSome result (λ epoch. epoch % 2 ^ 32 ≡ self.old.claim.name) }
        ensures state { IfSome result (λ epoch. self.new ≡ epoch_taken self.old epoch reading.shown) }
        ensures none { IfNone result (self.new ≡ self.old) }
        ensures missed { IfNone result
            (may_claim self.old reading.shown ≡ true → 2 ^ 64 ≤ self.old.claim.highest + 2 ^ 32) }
    {
        let now = reading.shown();
        if !self.is_due(now) {
            return None;
        }
        match self.claim.claim(now) {
            Some(epoch) => {
                begin_all(self.server_records.as_mut_slice(), epoch);
                Some(epoch)
            }
            None => None,
        }
    }

    // Whether it is to take a new epoch.
    fn is_due(&self, now: u64) -> bool
        ensures { result ≡ may_claim self.now now }
    {
        self.claim.is_due(self.has_met_all(), now)
    }

    // Whether it has met each server that isn't gone.
    fn has_met_all(&self) -> bool
        ensures { result ≡ has_all self.now.met self.now.chain }
    {
        self.met & self.chain == self.chain
    }

    /// This server does nothing more: its host refused a new connection at once, or a person says so.
    pub fn lose(&mut self, id: u8)
        requires server { id < 16 }
        ensures { self.new ≡ given_up self.old id }
    {
        lose_one(self.server_records.as_mut_slice(), usize::from(id));
        self.met |= bit_of(id);
    }

    /// What is due for this server by this reading. It counts as done. For a server that the chain hasn't nothing ever
    /// is. As long as the master is cut off no server is told that it is gone for its silence; so it isn't if it is the
    /// last one.
    #[tactic(auto, using(crate::proofs::Sparing::spared_count))]
    pub fn next(&mut self, id: u8, reading: Reading<()>) -> Due
        ensures due { id < length self.old.server_records
            → result ≡ due_at (sparing self.old reading.shown).server_records id reading.shown }
        ensures state { self.new ≡ after_asking self.old id reading.shown }
    {
        let now = reading.shown();
        self.spare_if_cut_off(now);
        self.attend(now);
        next_of(self.server_records.as_mut_slice(), usize::from(id), now)
    }

    // It asks what is due. If that is late, the time for which nobody is heard counts from now on.
    fn attend(&mut self, now: u64)
        ensures { self.new ≡ attended self.old now }
    {
        if self.is_late(now) {
            self.heard = now;
        }
        self.asked = now;
    }
}

// For how long nobody is heard before a master is cut off.
fn patience_of(paces: Paces) -> u64
    ensures { result ≡ patience_of paces.beat paces.after }
{
    paces.beat + (paces.after - paces.beat) / 2
}

// A server record for each server of a chain of n servers, by its id.
fn new_server_records(
    alloc: Global,
    servers: u8,
    paces: Paces,
) -> Result<Vec<ServerRecord>, AllocError>
    requires chain { servers ≤ 16 }
    ensures { IfOk result (λ server_records. server_records.items ≡ unmet_below servers paces.beat paces.after servers) }
{
    let mut server_records = Vec::new(alloc);
    for id in 0..servers {
        server_records.push(ServerRecord::new(id, others_of(servers, id), paces))?;
    }
    Ok(server_records)
}

// All servers of a chain of n servers.
#[tactic(auto, using(std::proofs::lemmas::Nat::pow_pos))]
fn all_of(servers: u8) -> u16
    requires chain { servers ≤ 16 }
    ensures { result ≡ all_of servers }
{
    if servers < 16 {
        bit_of(servers) - 1
    } else {
        u16::MAX
    }
}

// All of them but this one.
#[tactic(auto, using(std::proofs::lemmas::Nat::pow_below))]
fn others_of(servers: u8, id: u8) -> u16
    requires chain { servers ≤ 16 }
    requires server { id < servers }
    ensures { result ≡ others_of servers id }
{
    all_of(servers) - bit_of(id)
}

// When a server's lease ends, as far as it told.
fn end_of(server_records: &[ServerRecord], id: usize) -> u64
    ensures { result ≡ (server_record server_records.now id).end }
{
    if id < server_records.len() {
        server_records[id].end()
    } else {
        0
    }
}

// Whether somebody is heard if this server tells how it is. One that was called silent doesn't count: it answers beats
// that were sent before, and ends.
fn counts_as_heard(server_records: &[ServerRecord], id: usize) -> bool
    ensures { result ≡ is_watched (server_record server_records.now id).watch.standing }
{
    if id < server_records.len() {
        server_records[id].is_watched()
    } else {
        true
    }
}

// Each server record hears what a server told.
fn hear_all(server_records: &mut [ServerRecord], from: u8, report: &Report, now: u64)
    requires server { from < 16 }
    ensures { server_records.new ≡ all_heard server_records.old from report.now now }
{
    for server_record in server_records.iter_mut() {
        server_record.hear(from, report, now);
    }
}

// In each server record another epoch begins.
fn begin_all(server_records: &mut [ServerRecord], epoch: u64)
    ensures { server_records.new ≡ all_begun server_records.old epoch }
{
    for server_record in server_records.iter_mut() {
        server_record.begin(epoch);
    }
}

// No server is called silent before it answers once more.
fn spare_all(server_records: &mut [ServerRecord])
    ensures { server_records.new ≡ all_spared server_records.old }
{
    for server_record in server_records.iter_mut() {
        server_record.spare();
    }
}

// A server does nothing more.
fn lose_one(server_records: &mut [ServerRecord], id: usize)
    ensures { server_records.new ≡ slice_set server_records.old id (lost (server_record server_records.old id)) }
{
    if id < server_records.len() {
        server_records[id].lose();
    }
}

// What is due for a server. It counts as done.
fn next_of(server_records: &mut [ServerRecord], id: usize, now: u64) -> Due
    ensures due { id < length server_records.old → result ≡ due_at server_records.old id now }
    ensures state { server_records.new ≡ asked_at server_records.old id now }
{
    if id < server_records.len() {
        server_records[id].next(now)
    } else {
        Due::Wait(u64::MAX)
    }
}
