//! How the inlets of a server are dealt out.
ghost use Rattle.std.specs.Prelude.{◌≡◌, IfOk, vec_len};
ghost use Rattle.craq_server.specs.Wiring.{IsSeated};

use craq_process::inlet_for;
use rail::Inlet;
use std::alloc::{AllocError, Global};

/// An inlet of server `id` for each server of a chain but itself, by their ids.
#[tactic(auto, using(crate::proofs::Dealt::seated_none))]
pub(crate) fn inlets_for_all(
    alloc: Global,
    id: usize,
    servers: usize,
    inlets: &mut Vec<Inlet>,
) -> Result<Vec<Option<Inlet>>, AllocError>
    ensures count { IfOk result (λ taken. vec_len taken ≡ servers) }
    ensures seated { IfOk result (λ taken. IsSeated id inlets.old.items inlets.new.items taken.items) }
{
    let mut taken = Vec::new(alloc);
    for j in 0..servers {
        taken.push(inlet_for(id, j, inlets))?;
    }
    Ok(taken)
}
