//! Links between the servers of one process: a message is brought into the other server's inbox.
ghost use Rattle.std.specs.Prelude.{◌≡◌, ◌≢◌, ◌⊎◌, ◌≤◌, ◌<◌, ◌%◌, ◌==◌, ◌||◌, ◌++◌, ◌∷◌, [], ℕ, false, nat_lt};
ghost use Rattle.std.specs.Prelude.{OnOk, OnErr, IfErr, MatchResult};
ghost use Rattle.node.specs.Lawful.{IsBody, IsFit};
ghost use Rattle.node.specs.declared.messages.Input.TheVariants.{From};
ghost use Rattle.node.specs.declared.messages.Output.TheVariants.{To};
ghost use Rattle.rail.specs.declared.inbox_messages.InboxMessage.TheVariants.{Took};
ghost use Rattle.rail.specs.declared.faults.RailFault.TheVariants.{Memory, LinkDown};
ghost use Rattle.in_process_links.specs.InProcessLinks.{all_leads, before_last, failures_at, last_put, sent_at, sent_on};
ghost use Rattle.in_process_links.specs.Reached.{HasSameLinks, failures_of, given_to, id_of, put_on, reached_of};
ghost use Rattle.in_process_links.specs.ServerSets.{has_server};

use crate::server_sets::ServerSet;
use boxcar::tag::{Names, Tag};
use node::Peer;
use rail::{Inlet, Links, Published, RailFault};
use std::marker::Model;
use std::sync::Wait;

/// The link to one server: an inlet of its worker, unless there is none, as to itself.
#[derive(Drop)]
pub struct InboxLink {
    /// Brings the messages.
    pub inlet: Option<Inlet>,
    /// Whether a message could not be brought.
    pub has_failed: bool,
}

/// The links of one server to all servers of the process, by their ids.
#[derive(Drop)]
pub struct InProcessLinks<R: Wait + Drop> {
    rt: R,
    id: u8,
    links: Vec<InboxLink>,
    receivers: Receivers,
    // The servers that were sent something since this was last asked for.
    reached: ServerSet,
}

impl InboxLink {
    ghost use Rattle.std.specs.Prelude.{◌≡◌, ◌∷◌, ◌++◌, [], true, is_none, OnOk, OnErr, IfErr};
    ghost use Rattle.node.specs.Lawful.{IsBody};
    ghost use Rattle.node.specs.declared.messages.Input.TheVariants.{From};
    ghost use Rattle.rail.specs.declared.inbox_messages.InboxMessage.TheVariants.{Took};
    ghost use Rattle.in_process_links.specs.InProcessLinks.{leads, sent_by};

    /// A link that hasn't failed, or has if there is no inlet.
    pub fn new(inlet: Option<Inlet>) -> InboxLink
        ensures inlet { result.inlet ≡ inlet }
        ensures failed { result.has_failed ≡ is_none inlet }
    {
        let has_failed = inlet.is_none();
        InboxLink { inlet, has_failed }
    }

    // Brings a message of server `id`. If it can't be brought the link has failed.
    fn bring<R: Wait>(&mut self, rt: &R, id: u8, peer: Peer) -> Result<(), RailFault>
        requires { IsBody peer.body }
        ensures ok { OnOk result (sent_by self.new.inlet ≡ sent_by self.old.inlet ++ Took (From id peer) ∷ []) }
        ensures inlet { leads self.new.inlet ≡ leads self.old.inlet }
        ensures up { OnOk result (self.new.has_failed ≡ self.old.has_failed) }
        ensures err { OnErr result (sent_by self.new.inlet ≡ sent_by self.old.inlet) }
        ensures down { OnErr result (self.new.has_failed ≡ true) }
        ensures fault { IfErr result (λ fault. fault ≡ RailFault.LinkDown) }
    {
        match &mut self.inlet {
            Some(inlet) => {
                if inlet.bring(rt, id, peer).is_ok() {
                    return Ok(());
                }
            }
            None => drop(peer),
        }
        self.has_failed = true;
        Err(RailFault::LinkDown)
    }
}

impl<R: Wait + Drop> InProcessLinks<R> {
    /// The links of server `id`, each at the place of the id of the server it goes to, over which nothing was put.
    pub fn new(rt: R, id: u8, links: Vec<InboxLink>) -> InProcessLinks<R>
        ensures id { result.id ≡ id }
        ensures list { result.receivers ≡ [] }
        ensures links { result.links.items ≡ links.items }
        ensures reached { (j : ℕ) → has_server (reached_of result) j ≡ false }
    {
        InProcessLinks {
            rt,
            id,
            links,
            receivers: Receivers::new(),
            reached: ServerSet::new(),
        }
    }

    /// The servers that were sent something since this was last asked.
    pub fn take_reached(&mut self) -> ServerSet
        ensures id { self.new.id ≡ self.old.id }
        ensures reached { result ≡ reached_of self.old }
        ensures none { (j : ℕ) → has_server (reached_of self.new) j ≡ false }
        ensures links { HasSameLinks self.old self.new }
    {
        let reached = self.reached;
        self.reached = ServerSet::new();
        reached
    }
}

impl<R: Wait + Drop> Links for InProcessLinks<R> {
    ghost use Rattle.std.specs.Prelude.{◌∷◌, []};
    ghost use Rattle.node.specs.declared.messages.Input.TheVariants.{From};
    ghost use Rattle.rail.specs.declared.inbox_messages.InboxMessage.{InboxMessage};
    ghost use Rattle.rail.specs.declared.inbox_messages.InboxMessage.TheVariants.{Took};
    ghost use Rattle.in_process_links.specs.InProcessLinks.{all_put, failures_at, sent_at, sent_on};

    ghost Carried = { InboxMessage };

    // A link carries a message as the inbox message which says that it comes from the server of these links.
    ghost state = { λ s. record {
      list = all_put s.receivers (sent_on s.links.items);
      failures = failures_at s.links.items;
      carried = sent_at (sent_on s.links.items);
      spelled = λ peer. Took (From s.id peer) ∷ [];
    } };

    fn failed(&self, to: u8) -> bool {
        has_failed(self.links.as_slice(), to)
    }

    fn put(&mut self, _published: &Published, to: u8, peer: Peer) -> Result<(), RailFault>
        requires fit { IsFit (To to peer) }
        requires up { failures_of self.old to ≡ 0 }
        ensures ok { OnOk result (put_on self.new ≡ put_on self.old ++ (to, peer) ∷ []) }
        ensures err { OnErr result (put_on self.new ≡ put_on self.old) }
        ensures given { OnOk result
            (given_to self.new to ≡ given_to self.old to ++ Took (From (id_of self.old) peer) ∷ []) }
        ensures ungiven { OnErr result (given_to self.new to ≡ given_to self.old to) }
        ensures elsewhere { (j : ℕ) → j ≢ to → given_to self.new j ≡ given_to self.old j }
        ensures id { id_of self.new ≡ id_of self.old }
        ensures failures { (j : ℕ) → failures_of self.old j ≤ failures_of self.new j }
        ensures fault { IfErr result (λ f. (f ≡ Memory) ⊎ ((f ≡ LinkDown) × (0 < failures_of self.new to))) }
        // The server that it goes to counts as one that was sent something.
        ensures reached { MatchResult result
            (λ _. (j : ℕ) → has_server (reached_of self.new) j ≡ ((j == to % 32) || has_server (reached_of self.old) j))
            (λ _. reached_of self.new ≡ reached_of self.old) }
    {
        bring_to(&self.rt, &mut self.links, self.id, to, peer)?;
        self.receivers.add(to);
        self.reached.add(to);
        Ok(())
    }
}

// Whether the link to a server has failed.
#[tactic(auto, using(crate::proofs::Linked::tells_failed, crate::proofs::Linked::tells_beyond))]
fn has_failed(links: &[InboxLink], to: u8) -> bool
    ensures { result ≡ nat_lt 0 (failures_at links.now to) }
{
    let place = usize::from(to);
    if place < links.len() {
        links[place].has_failed
    } else {
        true
    }
}

// Brings a message to a server whose link hasn't failed. Each link's inlet leads where it led.
#[tactic(auto, using(crate::proofs::Linked::putting))]
fn bring_to<R: Wait>(
    rt: &R,
    links: &mut Vec<InboxLink>,
    id: u8,
    to: u8,
    peer: Peer,
) -> Result<(), RailFault>
    requires body { IsBody peer.body }
    requires up { failures_at links.old.items to ≡ 0 }
    ensures put { OnOk result (last_put to to (sent_on links.new.items) ≡ (to, peer) ∷ []) }
    ensures earlier { OnOk result (before_last to (sent_on links.new.items) ≡ sent_on links.old.items) }
    ensures given { OnOk result
        (sent_at (sent_on links.new.items) to ≡ sent_at (sent_on links.old.items) to ++ Took (From id peer) ∷ []) }
    ensures elsewhere { (j : ℕ) → j ≢ to →
        sent_at (sent_on links.new.items) j ≡ sent_at (sent_on links.old.items) j }
    ensures err { OnErr result (sent_on links.new.items ≡ sent_on links.old.items) }
    ensures inlets { all_leads links.new.items ≡ all_leads links.old.items }
    ensures failures { (j : ℕ) → failures_at links.old.items j ≤ failures_at links.new.items j }
    ensures fault { IfErr result (λ fault. (fault ≡ RailFault.LinkDown) × (0 < failures_at links.new.items to)) }
{
    let place = usize::from(to);
    if place < links.len() {
        links[place].bring(rt, id, peer)
    } else {
        drop(peer);
        Err(RailFault::LinkDown)
    }
}

/// The receivers of the messages that were put, the last one first, for contracts alone. It takes no memory.
#[derive(Drop)]
struct Receivers {
    tag: Tag,
}

impl Model for Receivers {
    ghost use Rattle.std.specs.Prelude.{ℕ, List};

    ghost Value = { List ℕ };

    ghost view = { λ r. r.tag.numbers };
}

impl Receivers {
    fn new() -> Receivers
        ensures { result ≡ [] }
    {
        Receivers { tag: Tag::empty() }
    }

    fn add(&mut self, to: u8)
        ensures { self.new ≡ to ∷ self.old }
    {
        let tag = Tag::of::<Later<'_>, First>(&Later {
            before: &self.tag,
            to,
        });
        self.tag = tag;
    }
}

// The receivers so far, and one more.
#[derive(Clone, Copy)]
struct Later<'a> {
    before: &'a Tag,
    to: u8,
}

struct First;

impl<'a> Names<Later<'a>> for First {
    ghost numbers = { λ later. later.to ∷ later.before.now.numbers };
}
