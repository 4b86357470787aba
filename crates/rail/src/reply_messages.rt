//! Replies on their way to their seats.
ghost use Rattle.std.specs.Prelude.{◌≡◌};
ghost use Rattle.faces.specs.Outputs.{PutsOut};
ghost use Rattle.node.specs.declared.messages.Output.TheVariants.{Reply as Replied};

use faces::Told;
use std::marker::Model;
use table::Reply;

/// A reply on its way to its seat, with a note of what the server had published by then. The step of the last input of
/// these put it out, for this port. Contracts see all three (`NotedReply`).
#[derive(Drop)]
pub struct ReplyMessage {
    port: usize,
    reply: Reply,
    told: Told,
}

impl Model for ReplyMessage {
    ghost use Rattle.std.specs.Coded.{codes};
    ghost use Rattle.logbook.specs.Pages.{book_coded};
    ghost use Rattle.table.specs.Items.{coded_item};
    ghost use Rattle.versions.specs.Stores.{coded_items};
    ghost use Rattle.rail.specs.NotedReplies.{NotedReply};
    ghost use Rattle.faces.specs.Outputs.{PutsOut};
    ghost use Rattle.node.specs.declared.messages.Output.TheVariants.{Reply as Replied};

    ghost Value = { NotedReply };

    ghost coded = { Prim.hlevel (codes, coded_item, coded_items, book_coded) };

    ghost view = { λ m. record { port = m.port; reply = m.reply; told = m.told } };

    ghost invariant = { λ m. PutsOut m.told (Replied m.port m.reply) };
}

impl ReplyMessage {
    pub fn new(port: usize, reply: Reply, told: Told) -> ReplyMessage
        requires { PutsOut told (Replied port reply) }
        ensures { result ≡ record { port = port; reply = reply; told = told } }
    {
        ReplyMessage { port, reply, told }
    }

    /// The reply, and the note.
    pub fn open(self) -> (Reply, Told)
        ensures parts { (result.0 ≡ self.reply) × (result.1 ≡ self.told) }
        ensures put_out { PutsOut result.1 (Replied self.port result.0) }
    {
        (self.reply, self.told)
    }
}
