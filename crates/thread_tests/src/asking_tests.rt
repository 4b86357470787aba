//! Tests over a running server whose worker and seat are asked, and don't wait.
use crate::rail_tests::running::{News, Step, all_go};
use rail::Turn;
use std::test::Fail;

#[test]
fn head_that_is_asked(rt: HostRuntime) -> Result<(), Fail> {
    let steps = [
        Step::TurnsIfAny(None),
        Step::Submits,
        Step::TurnsIfAny(Some(Turn::Went)),
        Step::SeesIfAny(false),
        Step::Brings(News::Ack(1)),
        Step::TurnsIfAny(Some(Turn::Went)),
        Step::SeesIfAny(true),
        Step::TurnsIfAny(None),
    ];
    assert!(rt; all_go(rt, rt.alloc(), 2, 1, &steps)?);
    Ok(())
}
