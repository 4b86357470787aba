//! What a chain does while no server fails.

use super::chains::{Act, Row, Seen, other_of_new};
use crate::making::all_hold;
use std::test::Fail;

// A set at the tail of sixteen: one Op and 15 Forward come before the reply, and 31 messages in all.
static SET_AT_TAIL: [Row; 5] = [
    (1, Act::Sets(15), Seen::Replies(0)),
    (15, Act::Comes, Seen::Replies(0)),
    (16, Act::Comes, Seen::Replies(1)),
    (1, Act::Nothing, Seen::Sent(31)),
    (1, Act::Nothing, Seen::ByAll(16)),
];

#[test]
fn sixteen_nodes_pass_a_set_through_31_messages(rt: HostRuntime) -> Result<(), Fail> {
    all_hold(other_of_new(rt.alloc(), 16, &SET_AT_TAIL))
}

// Nothing is delivered while the sets come. Then the forwards come, and the acknowledgements.
static SETS_AT_HEAD: [Row; 5] = [
    (10_000, Act::Sets(0), Seen::Dirty),
    (19_999, Act::Comes, Seen::Dirty),
    (1, Act::Comes, Seen::Unique(10_000)),
    (1, Act::Nothing, Seen::Stored(10_000)),
    (1, Act::Nothing, Seen::Sent(20_000)),
];

#[test]
fn many_sets_at_the_head_of_two(rt: HostRuntime) -> Result<(), Fail> {
    all_hold(other_of_new(rt.alloc(), 2, &SETS_AT_HEAD))
}
