//! Connections at any pace.

use crate::ending::holds;
use crate::serving_tests::{Served, is_served};
use serving::End;
use std::alloc::{AllocError, Global};
use std::test::Fail;

// However the input is cut, and however little of the output is taken at once.
fn is_the_same_at(alloc: Global, reads: usize, writes: usize) -> Result<bool, AllocError> {
    let served = Served {
        requests: b"set a 5 0 3\r\nxyz\r\ngets a\r\nbad\r\nget a b\r\nquit\r\n",
        reads,
        writes,
        items: usize::MAX,
        end: End::Closed,
        replies: b"STORED\r\nVALUE a 5 3 1\r\nxyz\r\nEND\r\nERROR\r\nVALUE a 5 3\r\nxyz\r\nEND\r\n",
        calls: 4,
        refused: 0,
    };
    is_served(alloc, served)
}

// The first of these paces at which something else is written.
fn is_the_same_at_each(alloc: Global, paces: usize) -> Result<bool, AllocError> {
    for reads in 1..paces {
        for writes in 1..paces {
            if !is_the_same_at(alloc, reads, writes)? {
                return Ok(false);
            }
        }
    }
    Ok(true)
}

#[test]
fn any_pace_writes_the_same(rt: HostRuntime) -> Result<(), Fail> {
    holds(is_the_same_at_each(rt.alloc(), 9))
}

// Without room a set is refused, and isn't made; silently, if it is silent.
static REFUSED: Served = Served {
    requests: b"set a 5 0 3\r\nxyz\r\nset a 5 0 3 noreply\r\nxyz\r\nget a\r\nincr a 1\r\nquit\r\n",
    reads: 7,
    writes: 5,
    items: 0,
    end: End::Closed,
    replies: b"SERVER_ERROR out of memory storing object\r\nEND\r\nNOT_FOUND\r\n",
    calls: 2,
    refused: 2,
};

#[test]
fn a_refused_set_is_not_made(rt: HostRuntime) -> Result<(), Fail> {
    holds(is_served(rt.alloc(), REFUSED))
}
