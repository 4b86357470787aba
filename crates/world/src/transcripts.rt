//! Transcripts: what a run shows of its connections.
ghost use Rattle.std.specs.Prelude.{◌≡◌, ◌<◌, length, map, slice_get, IfOk};
ghost use Rattle.world.specs.Scenes.{sent_to};
ghost use Rattle.world.specs.Transcripts.{connection_shown, transcript_of};

use crate::connections::Connection;
use crate::worlds::World;
use std::alloc::{AllocError, Global};
use std::marker::Model;
use table::{Op, Reply, Target};

/// What a run shows. Contracts see lists in place of vectors.
#[derive(Drop)]
pub struct Transcript {
    /// Each connection, in order.
    pub connections: Vec<ConnectionTranscript>,
    /// Whether nothing in the world waits.
    pub quiet: bool,
}

impl Model for Transcript {
    ghost use Rattle.world.specs.Transcripts.{TranscriptShown};

    ghost Value = { TranscriptShown };

    ghost view = { λ t. record { connections = t.connections.items; quiet = t.quiet } };
}

/// What a run shows of one connection. Contracts see lists in place of vectors.
#[derive(Drop)]
pub struct ConnectionTranscript {
    /// The server that the connection is at.
    pub home: usize,
    /// Its begun calls, in the order in which they began.
    pub calls: Vec<CallTranscript>,
    /// The bytes that it was sent.
    pub sent: Vec<u8>,
}

impl Model for ConnectionTranscript {
    ghost use Rattle.world.specs.Transcripts.{ConnectionShown};

    ghost Value = { ConnectionShown };

    ghost view = { λ t. record { home = t.home; calls = t.calls.items; sent = t.sent.items } };
}

/// A begun call, with its reply or none.
#[derive(Clone, PartialEq, Eq, Drop)]
pub struct CallTranscript {
    /// The key that it is on, or all of them.
    pub target: Target,
    /// What it asks of the target.
    pub op: Op,
    /// What it was answered, once its reply was handed to the connection.
    pub reply: Option<Reply>,
}

impl World {
    /// What the c-th connection was sent.
    pub fn sent(&self, c: usize) -> &[u8]
        requires connection { c < length self.now.connections }
        ensures { result.now ≡ sent_to (slice_get self.now.connections c) }
    {
        self.connections[c].sent()
    }

    /// The transcript of the world: each connection's calls, replies and sent bytes, and whether nothing waits.
    pub fn transcript(self, alloc: Global) -> Result<Transcript, AllocError>
        ensures { IfOk result (λ t. t ≡ transcript_of self) }
    {
        let quiet = self.is_quiet();
        Ok(Transcript {
            connections: connection_transcripts(alloc, self.connections)?,
            quiet,
        })
    }
}

fn connection_transcripts(
    alloc: Global,
    connections: Vec<Connection>,
) -> Result<Vec<ConnectionTranscript>, AllocError>
    ensures { IfOk result (λ v. v.items ≡ map connection_shown connections.items) }
{
    let mut shown = Vec::with_capacity(alloc, connections.len())?;
    let mut connections = connections.into_iter();
    while let Some(connection) = connections.next() {
        shown.push(connection.transcript(alloc)?)?;
    }
    Ok(shown)
}
