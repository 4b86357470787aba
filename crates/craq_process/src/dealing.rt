//! How an inlet of a server is dealt out.
ghost use Rattle.std.specs.Prelude.{◌≡◌, ◌≢◌, ◌++◌, [], None};
ghost use Rattle.craq_process.specs.Wiring.{listed};

use rail::Inlet;

/// An inlet of server `j` for server `id`: the last one, unless they are one server, or none is left.
pub fn inlet_for(id: usize, j: usize, inlets: &mut Vec<Inlet>) -> Option<Inlet>
    ensures taken { inlets.old.items ≡ inlets.new.items ++ listed result }
    ensures own { j ≡ id → result ≡ None }
    ensures whole { j ≢ id → result ≡ None → inlets.new.items ≡ [] }
{
    if j == id {
        return None;
    }
    inlets.pop()
}
