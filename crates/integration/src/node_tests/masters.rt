//! Whom the master tells, and how large a chain may be.

use crate::making::{Fault, all_hold, all_true};
use node::{Master, MasterFault, Node, NodeFault};
use std::alloc::Global;
use std::test::Fail;

// Whether the master sends these, and nothing else, when a server has failed.
fn tells(
    alloc: Global,
    master: &mut Master,
    failed: u8,
    wanted: &[(u8, u8)],
) -> Result<bool, Fault> {
    match master.gone(alloc, failed) {
        Ok(told) => Ok(told.as_slice() == wanted),
        Err(MasterFault::Memory) => Err(Fault::Memory),
    }
}

// A server that fails, and what the master sends then.
type Notice = (u8, &'static [(u8, u8)]);

static NOTICES: [Notice; 4] = [(1, &[(0, 1), (2, 1)]), (1, &[]), (0, &[(2, 0)]), (3, &[])];

fn other_notice(
    alloc: Global,
    master: &mut Master,
    rows: &[Notice],
) -> Result<Option<usize>, Fault> {
    let mut place = 0_usize;
    for row in rows {
        let (failed, wanted) = *row;
        if !tells(alloc, master, failed, wanted)? {
            return Ok(Some(place));
        }
        place = place.wrapping_add(1);
    }
    Ok(None)
}

#[test]
fn a_master_tells_the_others(rt: HostRuntime) -> Result<(), Fail> {
    let mut master = Master::new(3);
    all_hold(other_notice(rt.alloc(), &mut master, &NOTICES))
}

// Whether there is no such server, or there is one, which is idle.
fn is_made(alloc: Global, id: u8, count: u8, wanted: bool) -> bool {
    match Node::new(alloc, id, count) {
        Ok(node) => {
            let idle = node.is_idle();
            drop(node);
            wanted && idle
        }
        Err(NodeFault::BadCount) => !wanted,
        Err(_) => false,
    }
}

#[test]
fn a_chain_has_1_to_16_servers(rt: HostRuntime) -> Result<(), Fail> {
    all_true(&[
        is_made(rt.alloc(), 0, 0, false),
        is_made(rt.alloc(), 0, 17, false),
        is_made(rt.alloc(), 16, 16, false),
        is_made(rt.alloc(), 3, 3, false),
        is_made(rt.alloc(), 15, 16, true),
        is_made(rt.alloc(), 0, 1, true),
    ])
}
