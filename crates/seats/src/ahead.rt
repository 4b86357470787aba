//! The seats at which updates of a client connection were sent ahead, while an update before them waits for its reply.
ghost use Rattle.std.specs.Prelude.{◌≡◌, All, IfErr, IfOk, Some, MatchBool, OnErr, OnOk};
ghost use Rattle.rail.specs.CallSenders.{with_call};
ghost use Rattle.node.specs.Lawful.{IsCall};
ghost use Rattle.serving.specs.declared.endings.ServeFault.TheVariants.{Call as NoReply};
ghost use Rattle.seats.specs.SeatPools.{HasNoFault, HasOneFault, HasSameReader, HasSentNothing, IsAt, IsFreeAt};
ghost use Rattle.seats.specs.ClientConnections.{HasCause, HasLostAhead, HasSentAhead, IsOpenAt};

use crate::seat_pools::SeatPool;
use crate::submitters::Submitter;
use serving::{Connection, ServeFault};
use std::collections::VecDeque;
use std::sync::Wait;
use table::Call;

// Sends the update that comes next, if one does, at one more seat, if one is free. Whether it did. If the server is
// gone, that update is lost.
pub(crate) fn open_ahead<R: Wait>(
    rt: &R,
    pool: &mut SeatPool,
    connection: &mut Connection,
    ahead: &mut VecDeque<Submitter>,
) -> Result<bool, ServeFault>
    ensures pool { HasSameReader pool.old pool.new }
    ensures ok { IfOk result (λ sent. MatchBool sent
        (HasSentAhead pool.old pool.new connection.old connection.new ahead.old.items ahead.new.items)
        ((connection.new ≡ record connection.old { failed = connection.new.failed }) ×
        (ahead.new.items ≡ ahead.old.items) × HasSentNothing pool.old pool.new)) }
    ensures unfailed { OnOk result (HasNoFault pool.old pool.new) }
    ensures cause { IfErr result (λ fault. HasCause fault connection.new pool.old pool.new) }
    ensures err { OnErr result (HasLostAhead connection.old connection.new ×
        (ahead.new.items ≡ ahead.old.items) × HasSentNothing pool.old pool.new) }
{
    if !pool.has_room() || ahead.reserve(1).is_err() {
        return Ok(false);
    }
    let Some(submitter) = pool.take_free() else {
        return Ok(false);
    };
    match connection.ahead() {
        Ok(Some(call)) => {
            let submitter = submit_ahead(rt, pool, submitter, call)?;
            ahead.push_back_reserved(submitter);
            Ok(true)
        }
        Ok(None) | Err(_) => {
            pool.put(submitter);
            Ok(false)
        }
    }
}

// Sends a call at a free seat.
fn submit_ahead<R: Wait>(
    rt: &R,
    pool: &mut SeatPool,
    submitter: Submitter,
    call: Call,
) -> Result<Submitter, ServeFault>
    requires call { IsCall call }
    requires free { IsFreeAt pool.old.seen.instance submitter }
    ensures pool { HasSameReader pool.old pool.new }
    ensures opened { IfOk result (λ sent. IsOpenAt pool.old.seen.instance sent call) }
    ensures waiting { IfOk result
        (λ sent. sent.waiting ≡ Some (record { sender = pool.old.sender; call = call })) }
    ensures sent { IfOk result (λ sent. pool.new.sender ≡ with_call pool.old.sender sent.seat.port call) }
    ensures unfailed { OnOk result (HasNoFault pool.old pool.new) }
    ensures fault { IfErr result (λ fault. (fault ≡ NoReply) × HasOneFault pool.old pool.new) }
    ensures err { OnErr result (HasSentNothing pool.old pool.new) }
{
    let mut submitter = submitter;
    match pool.submit(rt, &mut submitter, call) {
        Ok(()) => Ok(submitter),
        Err(_) => {
            pool.put(submitter);
            Err(ServeFault::Call)
        }
    }
}

// Gives these seats to the pool, which takes the replies that nobody waits for any more.
pub(crate) fn leave_all(ahead: VecDeque<Submitter>, pool: &mut SeatPool)
    requires { All (IsAt pool.old.seen.instance) ahead.items }
    ensures reader { HasSameReader pool.old pool.new }
    ensures unsent { HasSentNothing pool.old pool.new }
{
    let mut ahead = ahead;
    for _ in 0..ahead.len() {
        leave_next(&mut ahead, pool);
    }
    drop(ahead);
}

// The same of the first of these seats.
fn leave_next(ahead: &mut VecDeque<Submitter>, pool: &mut SeatPool)
    requires { All (IsAt pool.old.seen.instance) ahead.old.items }
    ensures here { All (IsAt pool.new.seen.instance) ahead.new.items }
    ensures reader { HasSameReader pool.old pool.new }
    ensures unsent { HasSentNothing pool.old pool.new }
{
    if let Some(submitter) = ahead.pop_front() {
        pool.leave(submitter);
    }
}
