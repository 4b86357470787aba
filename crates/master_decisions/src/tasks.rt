//! What a master wants of its servers, and when: rules that read no clock and send nothing.
ghost use Rattle.std.specs.Prelude.{◌≡◌, ◌≤◌, ◌<◌, ◌++◌, map, IfOk, OnOk};
ghost use Rattle.node.specs.Masters.{notices_from};
ghost use Rattle.node.specs.Views.{single, union};
ghost use Rattle.master_decisions.specs.Tasks.{looks_first, own_request, telling};

use crate::decisions::Notice;
use crate::notices::notices;
use leases::Order;
use node::View;
use std::alloc::{AllocError, Global};

/// How many milliseconds a server may take to note that another has failed.
pub(crate) const PATIENCE: u64 = 5_000;

/// How many milliseconds the failed one may take, whose answer doesn't count.
pub(crate) const OWN_PATIENCE: u64 = 1_000;

/// For so many milliseconds a master waits for the answer of a server that a line calls gone.
pub const MOMENT: u64 = 100;

/// What is wanted of a server.
#[derive(Clone, Copy, PartialEq, Eq)]
pub enum Request {
    /// That it accepts the master.
    Greet,
    /// That it tells within a moment how it is, on the connection that stands.
    Look,
    /// That it notes this, within so many milliseconds: a server has failed, or was silent.
    Tell(Order, u64),
    /// Nothing: it is watched from now on.
    Watch,
}

/// What the thread of a server is to do.
#[derive(Clone, Copy)]
pub struct Task {
    /// The round to which the answer belongs.
    pub round: u32,
    /// What is wanted of the server.
    pub request: Request,
}

/// What is wanted of which servers if this notice of server `j` is given, and these are known to have failed: of `j`
/// itself if a line of the input asks for it, and of each other server that isn't known to have failed.
pub fn requests_of_notice(
    alloc: Global,
    notice: Notice,
    j: u8,
    gone: View,
    servers: u8,
) -> Result<Vec<(u8, Request)>, AllocError>
    requires chain { servers ≤ 16 }
    requires server { j < 16 }
    ensures { IfOk result (λ wanted. wanted.items ≡ own_request notice j
        ++ map (telling notice.order) (notices_from (union gone (single j)) j 0 servers)) }
{
    let given = notices(alloc, gone, j, servers)?;
    let mut wanted = Vec::new(alloc);
    if notice.is_typed() {
        wanted.push((j, Request::Tell(notice.order(), OWN_PATIENCE)))?;
    }
    add_tellings(&mut wanted, notice.order(), given.as_slice())?;
    Ok(wanted)
}

// Adds what is wanted of the receiver of each of these notices.
fn add_tellings(
    wanted: &mut Vec<(u8, Request)>,
    order: Order,
    given: &[(u8, u8)],
) -> Result<(), AllocError>
    ensures { OnOk result (wanted.new.items ≡ wanted.old.items ++ map (telling order) given.now) }
{
    for notice in given {
        wanted.push((notice.0, Request::Tell(order, PATIENCE)))?;
    }
    Ok(())
}

/// Whether a server is asked if it still answers before a line is done that calls it gone: a master that watches knows
/// it already.
pub fn looks_first(watches: bool, is_gone: bool) -> bool
    ensures { result ≡ looks_first watches is_gone }
{
    !watches && !is_gone
}
