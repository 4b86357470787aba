//! What one call of a connection comes to at once: it is refused, or has its reply.
ghost use Rattle.std.specs.Prelude.{◌≡◌, true, IfErr, IfOk, IsSome, IsTrue, MatchBool, OnErr, OnOk};
ghost use Rattle.proto.specs.Turns.{Outcome, Replied, is_store};
ghost use Rattle.faces.specs.Histories.{IsLater};
ghost use Rattle.faces.specs.Readers.{HasLookedAtMostOnce};
ghost use Rattle.serving.specs.Connections.{HasOutcome, MayHave};
ghost use Rattle.serving.specs.Serving.{CameTo};
ghost use Rattle.serving.specs.declared.endings.ServeFault.TheVariants.{Memory};
ghost use Rattle.serving.specs.Wanted.{IsAsking};
ghost use Rattle.seats.specs.ClientConnections.{HasCause, HasLookedFor, IsPeeked};
ghost use Rattle.seats.specs.SeatPools.{HasNoFault, HasSentNothing};

use crate::seat_pools::SeatPool;
use rail::Told;
use serving::{Connection, ServeFault, stores};
use table::{Call, Reply};

/// Whether a call is to be refused: it stores, and the pool has no room, so there is a limit.
pub(crate) fn is_refused(pool: &SeatPool, call: &Call) -> bool
    ensures stores { IsTrue result → is_store call.now.op ≡ true }
    ensures limit { IsTrue result → IsSome pool.now.limit }
{
    stores(&call.op) && !pool.has_room()
}

/// Has the call that waits answered by a look, or refuses it: then it isn't looked at. Whether either came of it. It is
/// an error if the server is marked, or memory is out.
#[tactic(auto, using(crate::proofs::Seated::later_then, crate::proofs::ClientConnectionLaws::known_now, crate::proofs::ClientConnectionLaws::peeked_came))]
pub(crate) fn settle(
    connection: &mut Connection,
    seen: &mut Told,
    pool: &mut SeatPool,
    call: &Call,
) -> Result<bool, ServeFault>
    requires asking { IsAsking call.now.target call.now.op connection.old }
    requires known { IsLater seen.old pool.old.seen }
    ensures known { IsLater seen.new pool.new.seen }
    ensures later { IsLater pool.old.seen pool.new.seen }
    ensures ok { IfOk result (λ settled. MatchBool settled
        ((outcome : Outcome) × CameTo IsPeeked seen.old call.now outcome seen.new ×
        HasOutcome outcome connection.old connection.new)
        ((connection.new ≡ connection.old) × (seen.new ≡ seen.old))) }
    // A reply that is handed on here is of the face that stood, and it was looked at once.
    ensures looked { IfOk result (λ settled. IsTrue settled →
        (outcome : Outcome) × HasOutcome outcome connection.old connection.new ×
        HasLookedFor call.now outcome pool.old pool.new) }
    // Whatever the answer: no look is forgotten, and at most one is made.
    ensures once { HasLookedAtMostOnce pool.old.looks pool.new.looks }
    ensures unsent { HasSentNothing pool.old pool.new }
    ensures unfailed { OnOk result (HasNoFault pool.old pool.new) }
    ensures cause { IfErr result (λ fault. HasCause fault connection.new pool.old pool.new) }
    ensures err { OnErr result ((seen.new ≡ seen.old) ×
        (connection.new ≡ record connection.old { failed = connection.new.failed })) }
{
    if is_refused(pool, call) {
        connection.refuse()?;
        return Ok(true);
    }
    match pool.peek(call) {
        Ok(Some(reply)) => {
            hand_on(connection, seen, pool, reply)?;
            Ok(true)
        }
        Ok(None) => Ok(false),
        Err(_) => Err(ServeFault::Call),
    }
}

/// Hands on the reply to the call that waits, which was taken, or found by a look, at this pool. Refused only if memory
/// is out.
pub(crate) fn hand_on(
    connection: &mut Connection,
    seen: &mut Told,
    pool: &SeatPool,
    reply: Reply,
) -> Result<(), ServeFault>
    requires may_have { MayHave connection.old.waiting reply }
    ensures ok { OnOk result (HasOutcome (Replied reply) connection.old connection.new × (seen.new ≡ pool.now.seen)) }
    ensures err { OnErr result ((seen.new ≡ seen.old) × (connection.new ≡ record connection.old { failed = true })) }
    ensures fault { IfErr result (λ fault. fault ≡ Memory) }
{
    let answered = connection.answer(&reply);
    drop(reply);
    answered?;
    *seen = pool.tell();
    Ok(())
}
