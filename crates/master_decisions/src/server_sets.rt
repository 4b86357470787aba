//! Sets of servers, as a master's decisions have them: a server that no chain can have is in none of them.
ghost use Rattle.std.specs.Prelude.{◌≡◌, ◌≢◌, ◌<◌, ◌≤◌, ℕ, IfNone, IfSome, not, true, false};
ghost use Rattle.node.specs.Views.{single, union};
ghost use Rattle.master_decisions.specs.ServerSets.{and_one, is_among, without};

use node::{SERVERS, View};

/// Whether this server is one of these.
pub(crate) fn is_among(these: View, i: u8) -> bool
    ensures { result ≡ is_among these i }
{
    i < SERVERS && these.has(i)
}

/// These servers, and this one, if a chain can have it.
pub(crate) fn and_one(these: View, i: u8) -> View
    ensures one { i < 16 → result ≡ union these (single i) }
    ensures beyond { 16 ≤ i → result ≡ these }
    ensures exact { result ≡ and_one these i }
{
    if i < SERVERS {
        these.union(View::single(i))
    } else {
        these
    }
}

/// These servers without this one.
pub(crate) fn without(these: View, i: u8) -> View
    ensures { result ≡ without these i }
{
    if is_among(these, i) {
        View::from_bits(these.bits() ^ View::single(i).bits())
    } else {
        these
    }
}

/// Whether this server is none of these. It is one of them from then on, if a chain can have it: so what is told of
/// each server once is told of it now.
pub(crate) fn once(these: &mut View, i: u8) -> bool
    ensures first { result ≡ not (is_among these.old i) }
    ensures noted { result ≡ true → these.new ≡ and_one these.old i }
    ensures kept { result ≡ false → these.new ≡ these.old }
{
    if is_among(*these, i) {
        return false;
    }
    *these = and_one(*these, i);
    true
}

/// The server that these are, if they are one.
pub fn only_one(these: View) -> Option<u8>
    ensures one { IfSome result (λ i. these ≡ single i) }
    ensures several { IfNone result ((i : ℕ) → i < 16 → these ≢ single i) }
{
    for i in 0..SERVERS {
        if these == View::single(i) {
            return Some(i);
        }
    }
    None
}
