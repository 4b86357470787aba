//! The links by which other servers' messages come in. A link outlives the connections that carry it.
ghost use Rattle.std.specs.Prelude.{◌≡◌, OnOk, OnErr};
ghost use Rattle.node.specs.Lawful.{IsBody};
ghost use Rattle.links.specs.IncomingLinks.{brought, goes_on, resumed, ungreeted, waiting_again};

use link_streams::ReceivedStream;
use node::Peer;
use peers::TakeFault;
use rail::Inlet;
use std::sync::Wait;

/// A link on which no connection stands: the inlet by which its server is heard, and how much of its stream was handed
/// on. There is no stream before that server has greeted. From then on it is that of one start of it, for ever.
#[derive(Drop)]
pub struct WaitingLink {
    inlet: Inlet,
    received: Option<ReceivedStream>,
}

/// A link that goes on over a connection: the inlet by which its server is heard, and how much of its stream was handed
/// on.
#[derive(Drop)]
pub struct IncomingLink {
    inlet: Inlet,
    received: ReceivedStream,
}

impl WaitingLink {
    /// The link of a server that hasn't greeted, which is heard by this inlet.
    pub(crate) fn new(inlet: Inlet) -> WaitingLink
        ensures { result ≡ ungreeted inlet }
    {
        WaitingLink {
            inlet,
            received: None,
        }
    }

    /// Whether the link may go on with this start of its server.
    pub(crate) fn goes_on(&self, start: u64) -> bool
        ensures { result ≡ goes_on start self.now.received }
    {
        match &self.received {
            None => true,
            Some(received) => received.resumes(start).is_some(),
        }
    }

    /// The link as it goes on with this start of its server: where it stood, or from its first byte if nobody has
    /// greeted.
    pub(crate) fn resume(self, start: u64) -> IncomingLink
        ensures { result ≡ resumed start self }
    {
        let WaitingLink { inlet, received } = self;
        match received {
            None => IncomingLink {
                inlet,
                received: ReceivedStream::new(start),
            },
            Some(received) => IncomingLink { inlet, received },
        }
    }
}

impl IncomingLink {
    /// Brings a message of server `i`, whose frame has so many bytes, and counts them. Refused if that makes 2^64 bytes
    /// or more, and if the worker is gone. It may wait.
    pub(crate) fn bring<R: Wait>(
        &mut self,
        rt: &R,
        i: u8,
        peer: Peer,
        length: usize,
    ) -> Result<(), TakeFault>
        requires { IsBody peer.body }
        ensures brought { OnOk result (self.new ≡ brought i peer length self.old) }
        ensures refused { OnErr result (self.new ≡ self.old) }
    {
        if self.received.handed().checked_add(length as u64).is_none() {
            drop(peer);
            return Err(TakeFault);
        }
        match self.inlet.bring(rt, i, peer) {
            Ok(()) => {
                self.received.hand_on(length);
                Ok(())
            }
            Err(_) => Err(TakeFault),
        }
    }

    /// How many bytes of the stream were handed on, in whole frames.
    pub(crate) fn handed(&self) -> u64
        ensures { result ≡ self.now.received.handed }
    {
        self.received.handed()
    }

    /// The link once its connection has ended. A part of a frame that came over it counts for nothing.
    pub(crate) fn wait(self) -> WaitingLink
        ensures { result ≡ waiting_again self }
    {
        let IncomingLink { inlet, received } = self;
        WaitingLink {
            inlet,
            received: Some(received),
        }
    }
}
