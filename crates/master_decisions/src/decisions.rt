//! What a master decides about a server: a rule that reads no clock and sends nothing. Only it makes
//! notices and orders, so whoever gives them does what was decided.
ghost use Rattle.std.specs.Prelude.{◌≡◌};
ghost use Rattle.master_decisions.specs.Decisions.{HasGrounds, OfNews, OfDue, OfLack};
ghost use Rattle.master_decisions.specs.Decisions.{decided_by_news, decided_by_due, decided_by_lack, sent_to_one_met};
ghost use Rattle.master_decisions.specs.Decisions.{news_of, notifying, sending_of, nothing};

use crate::news::News;
use crate::server_sets::is_among;
use leases::{Due, Order};
use node::View;

/// What the master knows then.
#[derive(Clone, Copy)]
pub struct Facts {
    /// Whether it watches: else it gives notices of lines of the input alone.
    pub watches: bool,
    /// The servers that are known to be gone.
    pub gone: View,
    /// Whether the start of a server that has accepted a connection is the one that was known before.
    pub is_known_start: bool,
}

/// A notice for the other servers.
#[derive(Clone, Copy)]
pub struct Notice {
    order: Order,
    is_typed: bool,
}

/// What is sent to one server.
#[derive(Clone, Copy)]
pub struct Sending {
    to: u8,
    order: Order,
}

/// What is done.
#[derive(Clone, Copy)]
pub struct Decision {
    given_up: Option<u8>,
    sending: Option<Sending>,
    notice: Option<Notice>,
}

impl Notice {
    /// That a server is gone, or was silent.
    pub fn order(&self) -> Order
        ensures { result ≡ self.now.order }
    {
        self.order
    }

    /// Whether a line of the input asks for it: then that server is told too.
    pub fn is_typed(&self) -> bool
        ensures { result ≡ self.now.is_typed }
    {
        self.is_typed
    }
}

impl Sending {
    /// The server that it is sent to, and what is sent.
    pub fn parts(&self) -> (u8, Order)
        ensures to { result.0 ≡ self.now.to }
        ensures order { result.1 ≡ self.now.order }
    {
        (self.to, self.order)
    }
}

impl Decision {
    /// The server that the master machine gives up, if it is to: that one does nothing more.
    pub fn given_up(&self) -> Option<u8>
        ensures { result ≡ self.now.given_up }
    {
        self.given_up
    }

    /// What is sent to one server, if something is.
    pub fn sending(&self) -> Option<Sending>
        ensures { result ≡ self.now.sending }
    {
        self.sending
    }

    /// The notice that is given, if one is.
    pub fn notice(&self) -> Option<Notice>
        ensures { result ≡ self.now.notice }
    {
        self.notice
    }
}

/// What is done about a piece of news, if this is known. Nobody is called gone, given up or told to end since a
/// connection has ended, or a server can't be reached.
pub fn decided_by_news(facts: Facts, news: &News) -> Decision
    ensures exact { result ≡ decided_by_news facts news.now }
    ensures grounds { HasGrounds facts (OfNews news.now) result }
{
    match news {
        News::Typed(j) => Decision {
            given_up: Some(*j),
            sending: None,
            notice: Some(Notice {
                order: Order::Gone(*j),
                is_typed: true,
            }),
        },
        News::Ended(j) => Decision {
            given_up: Some(*j),
            sending: None,
            notice: news_of(facts, *j),
        },
        News::Met(i, _, _) => sent_to_one_met(facts, *i),
        News::BadLine
        | News::Broken(_)
        | News::Lost(_)
        | News::Told(_, _)
        | News::Stalled(_, _)
        | News::Answered(_, _)
        | News::Fault(_) => nothing(),
    }
}

/// What is done about what the master machine has due for server `i`.
pub fn decided_by_due(facts: Facts, i: u8, due: Due) -> Decision
    ensures exact { result ≡ decided_by_due facts i due }
    ensures grounds { HasGrounds facts (OfDue i due) result }
{
    match due {
        Due::Wait(_) => nothing(),
        Due::Server(order) => sending_of(i, order),
        Due::Others(Order::Gone(j)) => Decision {
            given_up: None,
            sending: None,
            notice: news_of(facts, j),
        },
        Due::Others(Order::Silent(epoch, j)) => notifying(Order::Silent(epoch, j)),
        Due::Others(Order::Reign(_) | Order::Beat(_, _)) => nothing(),
    }
}

/// What is done if a server that was reached may not know that server `j` is gone: a master that watches tells it.
pub fn decided_by_lack(facts: Facts, j: u8) -> Decision
    ensures exact { result ≡ decided_by_lack facts j }
    ensures grounds { HasGrounds facts (OfLack j) result }
{
    if facts.watches && is_among(facts.gone, j) {
        notifying(Order::Gone(j))
    } else {
        nothing()
    }
}

// A server that was called gone, since it wasn't reached, and accepts a connection after all, is told so, and ends.
// Another start of it isn't: it may be a server of another run of the chain.
fn sent_to_one_met(facts: Facts, i: u8) -> Decision
    ensures { result ≡ sent_to_one_met facts i }
{
    if facts.is_known_start && is_among(facts.gone, i) {
        sending_of(i, Order::Gone(i))
    } else {
        nothing()
    }
}

// The notice that server j is gone, if that is news.
fn news_of(facts: Facts, j: u8) -> Option<Notice>
    ensures { result ≡ news_of facts j }
{
    if is_among(facts.gone, j) {
        None
    } else {
        Some(Notice {
            order: Order::Gone(j),
            is_typed: false,
        })
    }
}

fn notifying(order: Order) -> Decision
    ensures { result ≡ notifying order }
{
    Decision {
        given_up: None,
        sending: None,
        notice: Some(Notice {
            order,
            is_typed: false,
        }),
    }
}

fn sending_of(to: u8, order: Order) -> Decision
    ensures { result ≡ sending_of to order }
{
    Decision {
        given_up: None,
        sending: Some(Sending { to, order }),
        notice: None,
    }
}

fn nothing() -> Decision
    ensures { result ≡ nothing }
{
    Decision {
        given_up: None,
        sending: None,
        notice: None,
    }
}
