//! Messages that no server sends which keeps to the rules.

use super::inputs::{Ask, Given, Said, input_of, outputs_of};
use crate::making::{Fault, all_hold};
use node::Node;
use std::alloc::Global;
use std::test::Fail;

// What a node takes, and how many outputs that has.
type Row = (Given, usize);

fn goes(alloc: Global, node: &mut Node, row: Row) -> Result<bool, Fault> {
    let (given, count) = row;
    let input = input_of(alloc, given)?;
    let outputs = outputs_of(node, input)?;
    Ok(outputs.len() == count)
}

fn other_row(alloc: Global, node: &mut Node, rows: &[Row]) -> Result<Option<usize>, Fault> {
    let mut place = 0_usize;
    for row in rows {
        if !goes(alloc, node, *row)? {
            return Ok(Some(place));
        }
        place = place.wrapping_add(1);
    }
    Ok(None)
}

// The first row that goes otherwise than it says, at a new server of a chain.
fn other_of_new(alloc: Global, id: u8, count: u8, rows: &[Row]) -> Result<Option<usize>, Fault> {
    let mut node = Node::new(alloc, id, count)?;
    let other = other_row(alloc, &mut node, rows);
    drop(node);
    other
}

// The same at server 1 of 3 with an entry that isn't acknowledged, and an open read of its key.
fn other_of_dirty(alloc: Global, rows: &[Row]) -> Result<Option<usize>, Fault> {
    let mut node = Node::new(alloc, 1, 3)?;
    let other = match other_row(alloc, &mut node, &DIRTY) {
        Ok(None) => other_row(alloc, &mut node, rows),
        other => other,
    };
    drop(node);
    other
}

// The entry's origin isn't of the chain: it is taken as any other. The read is asked of the tail.
static DIRTY: [Row; 2] = [
    (Given::From(0, 0, Said::Forward(1, 15)), 1),
    (Given::Call(0, Ask::Read), 1),
];

static FORWARDS: [Row; 5] = [
    (Given::From(2, 0, Said::Forward(2, 0)), 0),
    (Given::From(0, 0, Said::Forward(1, 0)), 0),
    (Given::From(0, 0, Said::Forward(3, 0)), 0),
    (Given::From(0, 0, Said::Forward(u64::MAX, 0)), 0),
    (Given::From(0, 0, Said::Forward(2, 0)), 1),
];

#[test]
fn forwards_out_of_turn_are_passed_over(rt: HostRuntime) -> Result<(), Fail> {
    all_hold(other_of_dirty(rt.alloc(), &FORWARDS))
}

static ACKNOWLEDGEMENTS: [Row; 8] = [
    (Given::From(0, 0, Said::Ack(1)), 0),
    (Given::From(1, 0, Said::Ack(1)), 0),
    (Given::From(3, 0, Said::Ack(1)), 0),
    (Given::From(255, 0, Said::Ack(1)), 0),
    (Given::From(2, 0, Said::Ack(0)), 0),
    (Given::From(2, 0, Said::Ack(2)), 0),
    (Given::From(2, 0, Said::Ack(u64::MAX)), 0),
    (Given::From(2, 0, Said::Ack(1)), 1),
];

#[test]
fn acknowledgements_of_others_are_passed_over(rt: HostRuntime) -> Result<(), Fail> {
    all_hold(other_of_dirty(rt.alloc(), &ACKNOWLEDGEMENTS))
}

static ANSWERS: [Row; 7] = [
    (Given::From(0, 0, Said::Answer(1, 1)), 0),
    (Given::From(2, 0, Said::Answer(0, 1)), 0),
    (Given::From(2, 0, Said::Answer(2, 1)), 0),
    (Given::From(2, 0, Said::Answer(u64::MAX, 1)), 0),
    (Given::From(2, 0, Said::Answer(1, 2)), 0),
    (Given::From(2, 0, Said::Answer(1, u64::MAX)), 0),
    (Given::From(2, 0, Said::Answer(1, 1)), 1),
];

#[test]
fn answers_of_others_are_passed_over(rt: HostRuntime) -> Result<(), Fail> {
    all_hold(other_of_dirty(rt.alloc(), &ANSWERS))
}

static QUERIES: [Row; 2] = [
    (Given::From(0, 0, Said::Query(1)), 0),
    (Given::From(0, 0, Said::Query(u64::MAX)), 0),
];

#[test]
fn queries_beside_the_tail_are_passed_over(rt: HostRuntime) -> Result<(), Fail> {
    all_hold(other_of_dirty(rt.alloc(), &QUERIES))
}

// No view is of a chain of three, and nobody who fails is before or after.
static VIEWS: [Row; 10] = [
    (Given::From(2, 0b0010, Said::Ack(1)), 0),
    (Given::From(2, 0b1000, Said::Ack(1)), 0),
    (Given::From(2, 0b1_0000, Said::Ack(1)), 0),
    (Given::From(2, 0x8000, Said::Ack(1)), 0),
    (Given::From(2, 0xffff, Said::Ack(1)), 0),
    (Given::Gone(1), 0),
    (Given::Gone(3), 0),
    (Given::Gone(16), 0),
    (Given::Gone(255), 0),
    (Given::From(2, 0, Said::Ack(1)), 1),
];

#[test]
fn views_of_no_chain_are_passed_over(rt: HostRuntime) -> Result<(), Fail> {
    all_hold(other_of_dirty(rt.alloc(), &VIEWS))
}

static CALLS: [Row; 8] = [
    (Given::From(1, 0, Said::Op(0, Ask::Set(b"a", b"p"))), 0),
    (Given::From(1, 0, Said::Op(2, Ask::Set(b"a", b"p"))), 0),
    (
        Given::From(1, 0, Said::Op(u64::MAX, Ask::Set(b"a", b"p"))),
        0,
    ),
    (Given::From(0, 0, Said::Op(1, Ask::Set(b"a", b"p"))), 0),
    (Given::From(2, 0, Said::Op(1, Ask::Set(b"a", b"p"))), 0),
    (Given::From(1, 0, Said::Op(1, Ask::Read)), 0),
    (Given::From(1, 0, Said::Op(1, Ask::Set(b"a", b"p"))), 1),
    (Given::From(1, 0, Said::Op(1, Ask::Set(b"a", b"p"))), 0),
];

#[test]
fn calls_out_of_turn_are_passed_over(rt: HostRuntime) -> Result<(), Fail> {
    all_hold(other_of_new(rt.alloc(), 0, 2, &CALLS))
}
