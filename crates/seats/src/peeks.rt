//! Looks at a server's face that answer a call.
ghost use Rattle.std.specs.Prelude.{◌≡◌, ◌++◌, ◌∷◌, [], Option, IfSome, OnSome};
ghost use Rattle.table.specs.Items.{Item};
ghost use Rattle.table.specs.declared.operations.Reply.TheVariants.{Value};
ghost use Rattle.faces.specs.Histories.{IsLater};
ghost use Rattle.faces.specs.Readers.{HasLookedAtMostOnce};
ghost use Rattle.seats.specs.Replies.{ShowsClean};

use node::Look;
use rail::Reader;
use table::{Call, Op, Reply, Target};

/// The reply to a call by a look alone: to a read of a key that the server's face shows clean, as it stands at one
/// instant of this call. What is looked at begins with all that the reader has seen or was told of. None if the call is
/// no such read, memory is out, or no such face is found. It waits for nobody, and sends nothing. Time is logarithmic
/// in the number of keys; the item shares its data.
pub fn peek(reader: &mut Reader, call: &Call) -> Option<Reply>
    ensures later { IsLater reader.old.seen reader.new.seen }
    ensures clean { IfSome result
        (λ reply. (item : Option Item) × (reply ≡ Value item) × ShowsClean reader.new.seen call.now item) }
    // The face that stood: the reader looked once, and at it.
    ensures looked { OnSome result (reader.new.looks ≡ reader.old.looks ++ reader.new.seen ∷ []) }
    // Whatever the answer: no look is forgotten, and at most one is made.
    ensures once { HasLookedAtMostOnce reader.old.looks reader.new.looks }
{
    match (&call.target, &call.op) {
        (Target::One(key), Op::Read) => match reader.look(key) {
            Ok(Look::Clean(item)) => Some(Reply::Value(item)),
            _ => None,
        },
        _ => None,
    }
}
