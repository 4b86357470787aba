//! Masters that are answered: behind the answer to an order a master is told which links of this server stand still.

use crate::reported_connections::{Kind, kind_of};
use crate::still_links::StillLinks;
use ends::TrackedWriter;
use peers::{TakeFault, Taker, put_frame};
use std::alloc::Global;
use std::net::TcpStream;
use std::sync::Wait;
use wire::Frame;

/// One who takes the frames of a master and answers them. Nobody else writes to the master's connection.
#[derive(Drop)]
pub(crate) struct AnsweredMaster<'a, T> {
    alloc: Global,
    taker: T,
    still_links: &'a StillLinks,
    stream: &'a TcpStream,
}

impl<'a, T: Taker> AnsweredMaster<'a, T> {
    /// One who takes them so, and answers on this stream.
    pub(crate) fn new(
        alloc: Global,
        taker: T,
        still_links: &'a StillLinks,
        stream: &'a TcpStream,
    ) -> AnsweredMaster<'a, T> {
        AnsweredMaster {
            alloc,
            taker,
            still_links,
            stream,
        }
    }

    // Tells which links stand still, if some do, behind the answer to an order. If it can't, the connection has ended,
    // which its reader finds.
    fn tell(&self, kind: Kind) {
        let servers = self.still_links.servers();
        if servers == 0 || !matches!(kind, Kind::Order) {
            return;
        }
        let frame = Frame::Stalled(servers);
        let mut sink = TrackedWriter::new(self.stream);
        let _ = put_frame(self.alloc, &mut sink, &frame);
        drop(sink);
        drop(frame);
    }
}

impl<'a, T: Taker> Taker for AnsweredMaster<'a, T> {
    ghost taken = { λ m. T.taken m.taker };

    ghost failures = { λ m. T.failures m.taker };

    ghost hears = { λ before frame now. T.hears before.taker frame now.taker };

    ghost misses = { λ before frame now. T.misses before.taker frame now.taker };

    fn take<R: Wait>(&mut self, rt: &R, frame: Frame) -> Result<(), TakeFault> {
        let kind = kind_of(&frame);
        match self.taker.take(rt, frame) {
            Ok(()) => {
                self.tell(kind);
                Ok(())
            }
            Err(fault) => Err(fault),
        }
    }
}
