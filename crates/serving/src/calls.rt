//! Calls that a connection makes: which may be refused, and one that got no reply.
ghost use Rattle.std.specs.Prelude.{◌≡◌};
ghost use Rattle.proto.specs.Turns.{is_store};

use table::Op;
use thiserror::Error;

/// A call that got no reply.
#[derive(Clone, Copy, Debug, PartialEq, Eq, Error)]
#[error("a call got no reply")]
pub struct CallFault;

/// Whether an operation stores the data that comes with it. Only such a call is refused if there is no room.
pub fn stores(op: &Op) -> bool
    ensures { result ≡ is_store op.now }
{
    match op {
        Op::Set(_, _) | Op::Add(_, _) | Op::Replace(_, _) => true,
        Op::Append(_) | Op::Prepend(_) | Op::Cas(_, _, _) => true,
        Op::Read | Op::Incr(_) | Op::Decr(_) | Op::Delete | Op::Flush => false,
    }
}
