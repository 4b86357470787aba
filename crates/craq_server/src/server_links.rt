//! The links of a server to the others of its chain, which heal.
ghost use Rattle.std.specs.Prelude.{◌≡◌, ℕ, false};
ghost use Rattle.in_process_links.specs.ServerSets.{has_server};
ghost use Rattle.craq_server.specs.Healing.{CarryOn};

use crate::link_mailboxes::{LinkMailboxes, LinkNews, NewConnection};
use crate::link_sockets::LinkSocket;
use craq_process::ScheduledLinks;
use in_process_links::ServerSet;
use links::PeerLinks;
use node::Peer;
use rail::{Links, Published, RailFault};
use std::alloc::Global;
use std::sync::Arc;
use std::time::Clock;

/// The links, and the mailboxes in which stands what comes of their connections. A link loses nothing with a connection.
/// It fails if it is lost for good: then the other server is gone, or was started anew, or too much waits for it.
#[derive(Drop)]
pub(crate) struct ServerLinks<R> {
    servers: u8,
    links: PeerLinks<LinkSocket<R>>,
    mailboxes: Arc<LinkMailboxes<R>, Global>,
    // The servers of this process that were sent something: none ever is.
    reached: ServerSet,
    ghost none: { (j : ℕ) → has_server reached j ≡ false },
}

impl<R: Clock + Drop> ServerLinks<R> {
    ghost use Rattle.std.specs.Prelude.{◌≡◌};

    /// These links, in a chain of this many servers.
    pub(crate) fn new(
        servers: u8,
        links: PeerLinks<LinkSocket<R>>,
        mailboxes: Arc<LinkMailboxes<R>, Global>,
    ) -> ServerLinks<R>
        ensures links { result.links ≡ links }
    {
        ServerLinks {
            servers,
            links,
            mailboxes,
            reached: ServerSet::new(),
        }
    }

    // Tells how far the links are, for who looks after them.
    fn tell(&self) {
        for j in 0..self.servers {
            let kept = self.links.kept_at(j) as u64;
            let unwritten = self.links.unwritten_at(j) as u64;
            self.mailboxes.note(j, kept, kept.saturating_sub(unwritten));
        }
    }
}

impl<R: Clock + Drop> Links for ServerLinks<R> {
    ghost use Rattle.std.specs.Prelude.{ℕ};
    ghost use Rattle.wire.specs.Spellings.{spelling};
    ghost use Rattle.wire.specs.declared.frames.Frame.TheVariants as frames;
    ghost use Rattle.links.specs.PeerLinks.{failures_at, given_at};

    ghost Carried = { ℕ };

    ghost state = { λ s. record {
      list = s.links.puts;
      failures = failures_at s.links.links.items;
      carried = given_at s.links.links.items;
      spelled = λ peer. spelling (frames.Peer peer);
    } };

    fn failed(&self, to: u8) -> bool {
        self.links.failed(to)
    }

    fn put(&mut self, published: &Published, to: u8, peer: Peer) -> Result<(), RailFault> {
        self.links.put(published, to, peer)
    }
}

impl<R: Clock + Drop> ScheduledLinks for ServerLinks<R> {
    ghost use Rattle.std.specs.Prelude.{true};
    ghost use Rattle.craq_server.specs.Healing.{waiting_at};

    // They carry frames, which don't say whose they are.
    ghost may_be_of = { λ links id. true };

    // None of the servers to which they go is of this process.
    ghost reached = { λ links. links.reached };

    ghost waiting = { λ links. waiting_at links.links.links.items };

    ghost stays_own = { λ before after id same own. own };

    fn take_reached(&mut self) -> ServerSet {
        self.reached
    }

    #[tactic(auto, using(crate::proofs::Carrying::carry_all, crate::proofs::Carrying::carry_then, crate::proofs::Carrying::none_waits))]
    fn write_out(&mut self) -> bool {
        take_all_news(self.servers, &self.mailboxes, &mut self.links);
        let waits = self.links.write_out();
        self.tell();
        waits
    }
}

// Takes what has come of the connections of all links.
#[tactic(auto, using(crate::proofs::Carrying::carry_same))]
fn take_all_news<R: Clock + Drop>(
    servers: u8,
    mailboxes: &LinkMailboxes<R>,
    links: &mut PeerLinks<LinkSocket<R>>,
)
    ensures { CarryOn links.old links.new }
{
    if mailboxes.take_any() {
        take_news_of_each(servers, mailboxes, links);
    }
}

#[tactic(auto, using(crate::proofs::Carrying::carry_same, crate::proofs::Carrying::carry_then))]
fn take_news_of_each<R: Clock + Drop>(
    servers: u8,
    mailboxes: &LinkMailboxes<R>,
    links: &mut PeerLinks<LinkSocket<R>>,
)
    ensures { CarryOn links.old links.new }
{
    for j in 0..servers {
        let is_kept = take_news(j, mailboxes.take(j), links);
        if !is_kept {
            mailboxes.refuse(j);
        }
    }
}

// Takes what has come of the connections of the link to server `j`. Whether that keeps the rules.
#[tactic(auto, using(crate::proofs::Carrying::carry_same))]
fn take_news<R: Clock + Drop>(
    j: u8,
    news: Option<LinkNews<R>>,
    links: &mut PeerLinks<LinkSocket<R>>,
) -> bool
    ensures { CarryOn links.old links.new }
{
    match news {
        Some(news) => apply(j, news, links),
        None => true,
    }
}

// The same: first what was confirmed, then the end of the connection, then the next one.
#[tactic(auto, using(crate::proofs::Carrying::carry_then))]
fn apply<R: Clock + Drop>(j: u8, news: LinkNews<R>, links: &mut PeerLinks<LinkSocket<R>>) -> bool
    ensures { CarryOn links.old links.new }
{
    let LinkNews {
        confirmed,
        has_ended,
        connection,
        is_lost,
    } = news;
    let is_confirmed = confirm(j, confirmed, links);
    disconnect(j, has_ended, links);
    let is_connected = connect(j, connection, links);
    lose(j, is_lost, links);
    is_confirmed && is_connected
}

// So many bytes are confirmed. A connection that confirms what it mustn't is dropped. Whether it isn't.
#[tactic(auto, using(crate::proofs::Carrying::carry_same, crate::proofs::Carrying::carry_all, crate::proofs::Carrying::carry_then))]
fn confirm<R: Clock + Drop>(
    j: u8,
    confirmed: Option<u64>,
    links: &mut PeerLinks<LinkSocket<R>>,
) -> bool
    ensures { CarryOn links.old links.new }
{
    let Some(count) = confirmed else {
        return true;
    };
    let is_confirmed = links.confirm_at(j, count).is_ok();
    disconnect(j, !is_confirmed, links);
    is_confirmed
}

// The connection has ended, or hasn't.
#[tactic(auto, using(crate::proofs::Carrying::carry_same, crate::proofs::Carrying::carry_all))]
fn disconnect<R: Clock + Drop>(j: u8, has_ended: bool, links: &mut PeerLinks<LinkSocket<R>>)
    ensures { CarryOn links.old links.new }
{
    if has_ended {
        links.disconnect_at(j);
    }
}

// A new connection stands, if one does. Whether it goes on where it may.
#[tactic(auto, using(crate::proofs::Carrying::carry_same, crate::proofs::Carrying::carry_all))]
fn connect<R: Clock + Drop>(
    j: u8,
    connection: Option<NewConnection<R>>,
    links: &mut PeerLinks<LinkSocket<R>>,
) -> bool
    ensures { CarryOn links.old links.new }
{
    let Some(connection) = connection else {
        return true;
    };
    let NewConnection {
        socket,
        start,
        count,
    } = connection;
    links.connect_at(j, socket, start, count).is_ok()
}

// The link is lost for good, or isn't.
#[tactic(auto, using(crate::proofs::Carrying::carry_same, crate::proofs::Carrying::carry_but_one))]
fn lose<R: Clock + Drop>(j: u8, is_lost: bool, links: &mut PeerLinks<LinkSocket<R>>)
    ensures { CarryOn links.old links.new }
{
    if is_lost {
        links.fail_at(j);
    }
}
