//! Those who speak at a server's peer port, and why one of them isn't heard any more.

use crate::link_bells::LinkBell;
use peers::{LinkFault, PeerEnd, TakeFault, Taker};
use std::sync::Wait;
use wire::{Frame, MASTER};

/// Who speaks on a connection.
#[derive(Clone, Copy, PartialEq, Eq)]
pub(crate) enum Name {
    /// The server of this id.
    Server(u8),
    /// A master.
    Master,
}

impl Name {
    /// Who greets with this id.
    pub(crate) fn new(id: u8) -> Name {
        if id == MASTER {
            Name::Master
        } else {
            Name::Server(id)
        }
    }
}

/// What a frame is for.
#[derive(Clone, Copy)]
pub(crate) enum Kind {
    /// It greets.
    Hello,
    /// It tells that a server has failed.
    Notice,
    /// It is a message between servers.
    Message,
    /// It introduces, or answers.
    Greeting,
    /// It is an order of a master that watches.
    Order,
    /// It answers an order.
    Report,
}

/// One who takes frames. It knows which one was refused, and rings after each, if it has a bell: who brings something
/// and takes no turns leaves them to others.
#[derive(Drop)]
pub(crate) struct ReportedConnection<T> {
    /// Who takes them.
    pub(crate) taker: T,
    refused: Option<Kind>,
    bell: Option<LinkBell>,
}

impl<T: Taker> ReportedConnection<T> {
    /// One who has said nothing yet.
    pub(crate) fn new(taker: T, bell: Option<LinkBell>) -> ReportedConnection<T> {
        ReportedConnection {
            taker,
            refused: None,
            bell,
        }
    }

    /// Who takes them.
    pub(crate) fn into_taker(self) -> T {
        let ReportedConnection {
            taker,
            refused: _,
            bell: _bell,
        } = self;
        taker
    }

    /// What the frame was for that was refused, if one was.
    pub(crate) fn refused(&self) -> Option<Kind> {
        self.refused
    }
}

/// Why one of this name isn't heard any more, if a frame of this kind was refused: in words that go on from "the link
/// from server I" or "the connection of the master". None if that is no news: a master that ends, a frame that couldn't
/// be brought as this server stops, or an order that couldn't be answered.
pub(crate) fn why_ended(
    name: Name,
    refused: Option<Kind>,
    end: Result<PeerEnd, LinkFault>,
) -> Option<&'static str> {
    match end {
        Ok(PeerEnd::Input) if name == Name::Master => None,
        Ok(PeerEnd::Input) => Some("ended"),
        Ok(PeerEnd::Malformed) => Some("was closed after a malformed frame"),
        Ok(PeerEnd::Old) => Some("was closed after a frame of format 1"),
        Err(LinkFault::Read) => Some("broke"),
        Err(LinkFault::Memory) => Some("was closed since memory ran out"),
        Err(LinkFault::Take) => reason_of(name, refused),
        Err(LinkFault::Write) => None,
    }
}

impl<T: Taker> Taker for ReportedConnection<T> {
    ghost taken = { λ g. T.taken g.taker };

    ghost failures = { λ g. T.failures g.taker };

    ghost hears = { λ before frame now. T.hears before.taker frame now.taker };

    ghost misses = { λ before frame now. T.misses before.taker frame now.taker };

    fn take<R: Wait>(&mut self, rt: &R, frame: Frame) -> Result<(), TakeFault> {
        let kind = kind_of(&frame);
        let taken = self.taker.take(rt, frame);
        if let Some(bell) = &self.bell {
            bell.ring();
        }
        match taken {
            Ok(()) => Ok(()),
            Err(fault) => {
                self.refused = Some(kind);
                Err(fault)
            }
        }
    }
}

/// What a frame is for.
pub(crate) fn kind_of(frame: &Frame) -> Kind {
    match frame {
        Frame::Hello(_) => Kind::Hello,
        Frame::Gone(_) => Kind::Notice,
        Frame::Peer(_) => Kind::Message,
        Frame::Introduction(_)
        | Frame::Accepted(_)
        | Frame::Refused(_)
        | Frame::Noted(_)
        | Frame::Confirmed(_) => Kind::Greeting,
        Frame::Reign(_) | Frame::Beat(_) | Frame::Silent(_) => Kind::Order,
        Frame::Alive(_) | Frame::Stalled(_) => Kind::Report,
    }
}

// Which rule a frame that was refused has broken.
fn reason_of(name: Name, refused: Option<Kind>) -> Option<&'static str> {
    match (name, refused) {
        (_, Some(Kind::Hello)) => Some("was closed after a second Hello"),
        (_, Some(Kind::Greeting)) => Some("was closed after a frame that belongs to greetings"),
        (_, Some(Kind::Report)) | (Name::Server(_), Some(Kind::Order)) => {
            Some("was closed after a frame that belongs to leases")
        }
        (Name::Server(_), Some(Kind::Notice)) => {
            Some("was closed after a notice of a failure, which only the master may send")
        }
        (Name::Master, Some(Kind::Message)) => {
            Some("was closed after a message that only servers may send")
        }
        _ => None,
    }
}
