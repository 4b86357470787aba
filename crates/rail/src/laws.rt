//! Laws of queues: what was taken is a beginning of what was put, and the rest still stands there. And of seats: what
//! their sender sent from their ports is what was sent at them.
ghost use Rattle.std.specs.Prelude.{◌≡◌, ◌≢◌, ◌++◌, ℕ, List};
ghost use mathlib.Core.Option.{some};
ghost use lib.ListN.{get_elem?};
ghost use Rattle.rail.specs.declared.inbox_messages.InboxMessage.{InboxMessage};
ghost use Rattle.rail.specs.declared.inbox_messages.Envelope.{Envelope};
ghost use Rattle.rail.specs.declared.inbox.InboxKnowledge.{InboxKnowledge};
ghost use Rattle.rail.specs.declared.reply_channels.ReplyKnowledge.{ReplyKnowledge};
ghost use Rattle.atomic_table.specs.Seated.{TableId};
ghost use Rattle.faces.specs.Histories.{History, Instance};
ghost use Rattle.table.specs.declared.operations.Call.{Call};
ghost use Rattle.table.specs.declared.operations.Reply.{Reply};
ghost use Rattle.rail.specs.CallSenders.{CallSenderState, call_sender_at, with_call};
ghost use Rattle.rail.specs.Inbox.{Delivers, of, sender, taker};
ghost use Rattle.rail.specs.NotedReplies.{Address, NotedReply};
ghost use Rattle.rail.specs.ReplyMessages as reply_messages;
ghost use Rattle.rail.specs.Seats.{IsInStep, SeatState, with_reply, with_sent};
ghost use Rattle.rail.specs.Servers.{seat_at};

/// For who knows of a sender and of the receiver: what was taken of that sender is a beginning of what it sent. What is
/// left stands in the inbox, in order.
pub fn taken_begins_sent()
    ensures { (items : List Envelope) (views : List InboxKnowledge) (i j from own : ℕ) (put : List InboxMessage)
        (made ports : ℕ) (got : List Envelope)
        → Delivers items views
        → get_elem? views i ≡ some (sender from own put)
        → get_elem? views j ≡ some (taker made ports got)
        → put ≡ of from got ++ of from items }
{}

/// For who knows of a seat and of its worker: the replies that the seat took are a beginning of those that were put for
/// it. What is left stands in its queue, in order. Both are of the same server and port.
pub fn replies_begin_those_put()
    ensures rest { (items : List NotedReply) (views : List ReplyKnowledge) (i j : ℕ) (a b : Address)
        (put got : List NotedReply)
        → reply_messages.IsReplyQueue items views
        → get_elem? views i ≡ some (reply_messages.putter a put)
        → get_elem? views j ≡ some (reply_messages.taker b got)
        → put ≡ got ++ items }
    ensures address { (items : List NotedReply) (views : List ReplyKnowledge) (i j : ℕ) (a b : Address)
        (put got : List NotedReply)
        → reply_messages.IsReplyQueue items views
        → get_elem? views i ≡ some (reply_messages.putter a put)
        → get_elem? views j ≡ some (reply_messages.taker b got)
        → a ≡ b }
{}

/// What a sender sent from a seat's port is what was sent at that seat, call for call: so it is at first, and each
/// `submit` keeps it, of the seat whose call it sends and of each seat at another port. So does each reply.
pub fn calls_keep_step()
    ensures first { (o : Instance) (b : TableId) (k port : ℕ) → IsInStep (call_sender_at o b k) (seat_at o port) }
    ensures own { (sender : CallSenderState) (seat : SeatState) (call : Call) → IsInStep sender seat
        → IsInStep (with_call sender seat.port call) (with_sent seat sender call) }
    ensures others { (sender : CallSenderState) (seat : SeatState) (port : ℕ) (call : Call) → port ≢ seat.port
        → IsInStep sender seat → IsInStep (with_call sender port call) seat }
    ensures replies { (sender : CallSenderState) (seat : SeatState) (reply : Reply) (told : History)
        → IsInStep sender seat → IsInStep sender (with_reply seat reply told) }
{}
