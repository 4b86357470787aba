//! Tests: what readers see beside a server.
ghost use Rattle.std.specs.Prelude.{◌≡◌, false, IfOk};

use crate::ending::holds;
use faces::{FaceFault, Publisher, Reader, Weight};
use node::{Body, Input, Look, Node, Peer, View};
use std::alloc::Global;
use std::sync::Wait;
use std::test::Fail;
use table::{Call, Item, Key, Op, SharedBytes, Target};

// --- inputs

fn key(alloc: Global, name: &[u8]) -> Result<Key, FaceFault> {
    match Key::new(alloc, name)? {
        Some(key) => Ok(key),
        None => Err(FaceFault::Closed),
    }
}

// A call on a key that was made, or wasn't.
fn on(key: Result<Key, FaceFault>, op: Op) -> Result<Input, FaceFault> {
    match key {
        Ok(key) => {
            let target = Target::One(key);
            Ok(Input::Call(0, Call { target, op }))
        }
        Err(fault) => {
            drop(op);
            Err(fault)
        }
    }
}

fn copied(key: &Key) -> Result<Key, FaceFault> {
    Ok(key.clone()?)
}

// A set of n bytes.
fn set(alloc: Global, key: Result<Key, FaceFault>, size: usize) -> Result<Input, FaceFault> {
    let data = b"vvvvvvvvvv".as_slice().get(..size).unwrap_or_default();
    match SharedBytes::copy_from_slice(alloc, data) {
        Ok(bytes) => on(key, Op::Set(0, bytes)),
        Err(_) => {
            drop(key);
            Err(FaceFault::Memory)
        }
    }
}

fn acknowledged(n: u64) -> Input {
    let view = View::empty();
    let body = Body::Ack(n);
    Input::From(1, Peer { view, body })
}

// What a server takes, on the keys `a` and `bcd`.
#[derive(Clone, Copy)]
enum Taken {
    // A set of this many bytes.
    SetA(usize),
    SetBcd(usize),
    DeleteA,
    DeleteBcd,
    Acknowledged(u64),
    Flush,
}

fn input_of(alloc: Global, taken: Taken) -> Result<Input, FaceFault> {
    match taken {
        Taken::SetA(size) => set(alloc, key(alloc, b"a"), size),
        Taken::SetBcd(size) => set(alloc, key(alloc, b"bcd"), size),
        Taken::DeleteA => on(key(alloc, b"a"), Op::Delete),
        Taken::DeleteBcd => on(key(alloc, b"bcd"), Op::Delete),
        Taken::Acknowledged(number) => Ok(acknowledged(number)),
        Taken::Flush => {
            let target = Target::All;
            let op = Op::Flush;
            Ok(Input::Call(0, Call { target, op }))
        }
    }
}

// --- nodes and servers

// The first of n servers.
fn first(alloc: Global, n: u8) -> Result<Node, FaceFault>
    ensures { IfOk result (λ node. node.stopped ≡ false) }
{
    match Node::new(alloc, 0, n) {
        Ok(node) => Ok(node),
        Err(_) => Err(FaceFault::Closed),
    }
}

// A node that has taken an input, which was made or wasn't.
fn after(node: Node, input: Result<Input, FaceFault>) -> Result<Node, FaceFault>
    requires { node.stopped ≡ false }
    ensures { IfOk result (λ node. node.stopped ≡ false) }
{
    match input {
        Ok(input) => stepped(node, input),
        Err(fault) => {
            drop(node);
            Err(fault)
        }
    }
}

fn stepped(node: Node, input: Input) -> Result<Node, FaceFault>
    requires { node.stopped ≡ false }
    ensures { IfOk result (λ node. node.stopped ≡ false) }
{
    let mut node = node;
    if !input.is_fit() {
        drop(input);
        drop(node);
        return Err(FaceFault::Closed);
    }
    match node.step(input) {
        Ok(outputs) => {
            drop(outputs);
            Ok(node)
        }
        Err(_) => {
            drop(node);
            Err(FaceFault::Memory)
        }
    }
}

// The first node of n, which has taken an input or nothing.
fn node_of(alloc: Global, count: u8, taken: Option<Taken>) -> Result<Node, FaceFault>
    ensures { IfOk result (λ node. node.stopped ≡ false) }
{
    let node = first(alloc, count)?;
    match taken {
        Some(taken) => after(node, input_of(alloc, taken)),
        None => Ok(node),
    }
}

// A server of such a node, with room for one reader.
fn opened<R: Wait>(
    rt: &R,
    alloc: Global,
    count: u8,
    taken: Option<Taken>,
) -> Result<Publisher, FaceFault> {
    let node = node_of(alloc, count, taken)?;
    Publisher::open(rt, alloc, node, 1)
}

// An input that may be given is taken.
fn feed<R: Wait>(rt: &R, publisher: &mut Publisher, input: Input) -> Result<(), FaceFault>
    ensures { publisher.new.published.instance ≡ publisher.old.published.instance }
{
    if !input.is_fit() {
        drop(input);
        return Err(FaceFault::Closed);
    }
    match publisher.take(rt, input) {
        Ok(outputs) => {
            drop(outputs);
            Ok(())
        }
        Err(fault) => Err(fault),
    }
}

// --- looks

// What a look at a key shows: of an item of `v` its number.
#[derive(Clone, Copy, PartialEq, Eq)]
enum Shown {
    Item(u64),
    Nothing,
    Dirty,
    Closed,
    Other,
}

fn shown_by(look: &Look<Item>) -> Shown {
    match look {
        Look::Clean(Some(item)) => {
            if item.bytes().as_slice() == b"v".as_slice() {
                Shown::Item(item.unique())
            } else {
                Shown::Other
            }
        }
        Look::Clean(None) => Shown::Nothing,
        Look::Dirty => Shown::Dirty,
    }
}

fn look(beside: &mut Reader, key: &Key) -> Result<Shown, FaceFault>
    ensures { beside.new.seen.instance ≡ beside.old.seen.instance }
{
    match beside.look(key) {
        Ok(look) => {
            let shown = shown_by(&look);
            drop(look);
            Ok(shown)
        }
        Err(FaceFault::Closed) => Ok(Shown::Closed),
        Err(FaceFault::Memory) => Err(FaceFault::Memory),
    }
}

// What a look at the key `a` shows.
fn look_at_a(alloc: Global, beside: &mut Reader) -> Result<Shown, FaceFault>
    ensures { beside.new.seen.instance ≡ beside.old.seen.instance }
{
    let a = key(alloc, b"a")?;
    let shown = look(beside, &a);
    drop(a);
    shown
}

// --- steps

// What a server and a reader beside it do, and what is seen of them.
#[derive(Clone, Copy)]
enum Step {
    Takes(Taken),
    // The reader is told of what is published, and then tells of all that.
    Tells,
    // The reader looks at the key `a`.
    Shows(Shown),
    // The face weighs this many keys and bytes; and so does the other copy, after an input that changes nothing.
    Weighs(u64, u64),
}

fn tells(publisher: &Publisher, beside: &mut Reader) -> bool
    requires { beside.old.seen.instance ≡ publisher.now.published.instance }
    ensures { beside.new.seen.instance ≡ beside.old.seen.instance }
{
    let told = publisher.published().again().tell();
    beside.learn(told.again());
    beside.tell().has_all_of(&told)
}

fn weighs<R: Wait>(rt: &R, publisher: &mut Publisher, weight: Weight) -> Result<bool, FaceFault>
    ensures { publisher.new.published.instance ≡ publisher.old.published.instance }
{
    let first = publisher.weight() == weight;
    feed(rt, publisher, acknowledged(0))?;
    Ok(first && publisher.weight() == weight)
}

fn goes<R: Wait>(
    rt: &R,
    alloc: Global,
    publisher: &mut Publisher,
    beside: &mut Reader,
    step: Step,
) -> Result<bool, FaceFault>
    requires { beside.old.seen.instance ≡ publisher.old.published.instance }
    ensures { beside.new.seen.instance ≡ publisher.new.published.instance }
{
    match step {
        Step::Takes(taken) => {
            let input = input_of(alloc, taken)?;
            feed(rt, publisher, input)?;
            Ok(true)
        }
        Step::Tells => Ok(tells(publisher, beside)),
        Step::Shows(shown) => Ok(look_at_a(alloc, beside)? == shown),
        Step::Weighs(items, bytes) => weighs(rt, publisher, Weight { items, bytes }),
    }
}

fn all_go<R: Wait>(
    rt: &R,
    alloc: Global,
    publisher: &mut Publisher,
    beside: &mut Reader,
    steps: &[Step],
) -> Result<bool, FaceFault>
    requires { beside.old.seen.instance ≡ publisher.old.published.instance }
{
    for step in steps {
        if !goes(rt, alloc, publisher, beside, *step)? {
            return Ok(false);
        }
    }
    Ok(true)
}

// Whether all steps of the first of n servers, whose node had taken an input or nothing, and of a reader beside it go
// as they say. The server ends then, and no face is found after that.
fn go_at_first<R: Wait>(
    rt: &R,
    alloc: Global,
    count: u8,
    taken: Option<Taken>,
    steps: &[Step],
) -> Result<bool, FaceFault> {
    let mut publisher = opened(rt, alloc, count, taken)?;
    match publisher.reader() {
        Ok(mut beside) => {
            let went = all_go(rt, alloc, &mut publisher, &mut beside, steps);
            publisher.end(rt);
            let shown = look_at_a(alloc, &mut beside);
            drop(beside);
            Ok(went? && shown? == Shown::Closed)
        }
        Err(fault) => {
            publisher.end(rt);
            Err(fault)
        }
    }
}

static LOOKS: [Step; 4] = [
    Step::Shows(Shown::Nothing),
    Step::Takes(Taken::SetA(1)),
    Step::Tells,
    Step::Shows(Shown::Item(1)),
];

#[test]
fn a_reader_looks_before_and_after_a_publish(rt: HostRuntime) -> Result<(), Fail> {
    holds(go_at_first(&rt, rt.alloc(), 1, None, &LOOKS))
}

static HELD: [Step; 1] = [Step::Shows(Shown::Item(1))];

#[test]
fn a_node_opens_with_what_it_holds(rt: HostRuntime) -> Result<(), Fail> {
    holds(go_at_first(&rt, rt.alloc(), 1, Some(Taken::SetA(1)), &HELD))
}

static HELD_WEIGHT: [Step; 1] = [Step::Weighs(1, 2)];

#[test]
fn a_node_opens_with_the_weight_of_what_it_holds(rt: HostRuntime) -> Result<(), Fail> {
    holds(go_at_first(&rt, rt.alloc(), 1, Some(Taken::SetA(1)), &HELD_WEIGHT))
}

// New keys, and keys that are set again, to more and to fewer bytes. A key without item counts until that is
// acknowledged, also if it is set again before, and nothing after a flush.
static WEIGHTS: [Step; 25] = [
    Step::Weighs(0, 0),
    Step::Takes(Taken::SetA(1)),
    Step::Weighs(1, 2),
    Step::Takes(Taken::SetBcd(5)),
    Step::Weighs(2, 10),
    Step::Takes(Taken::SetA(7)),
    Step::Weighs(2, 16),
    Step::Takes(Taken::SetA(0)),
    Step::Weighs(2, 9),
    Step::Takes(Taken::DeleteBcd),
    Step::Weighs(2, 4),
    Step::Takes(Taken::Acknowledged(5)),
    Step::Weighs(1, 1),
    Step::Takes(Taken::DeleteA),
    Step::Weighs(1, 1),
    Step::Takes(Taken::SetA(3)),
    Step::Weighs(1, 4),
    Step::Takes(Taken::Acknowledged(7)),
    Step::Weighs(1, 4),
    Step::Takes(Taken::Flush),
    Step::Weighs(0, 0),
    Step::Takes(Taken::SetBcd(2)),
    Step::Weighs(1, 5),
    Step::Takes(Taken::Acknowledged(9)),
    Step::Weighs(1, 5),
];

#[test]
fn a_face_weighs_its_keys_and_data(rt: HostRuntime) -> Result<(), Fail> {
    holds(go_at_first(&rt, rt.alloc(), 2, None, &WEIGHTS))
}

// --- many keys

fn nth_key(alloc: Global, i: u32) -> Result<Key, FaceFault> {
    let name = format!(in alloc; "key{i}")?;
    key(alloc, name.as_bytes())
}

// A key for each number below the count.
fn keys(alloc: Global, count: u32) -> Result<Vec<Key>, FaceFault> {
    let mut keys = Vec::new(alloc);
    for i in 0..count {
        match keys.push(nth_key(alloc, i)?) {
            Ok(()) => {}
            Err(refused) => {
                drop(refused);
                return Err(FaceFault::Memory);
            }
        }
    }
    Ok(keys)
}

// How many of many keys are deleted.
const DELETED: usize = 1_000;

// Each key is set, and all of that is acknowledged.
fn fill<R: Wait>(
    rt: &R,
    alloc: Global,
    publisher: &mut Publisher,
    keys: &[Key],
) -> Result<(), FaceFault> {
    for key in keys {
        feed(rt, publisher, set(alloc, copied(key), 1)?)?;
    }
    feed(rt, publisher, acknowledged(keys.len() as u64))
}

// A key is deleted, and that, which has this number, is acknowledged. Whether a look after each shows it.
fn delete_one<R: Wait>(
    rt: &R,
    publisher: &mut Publisher,
    beside: &mut Reader,
    key: &Key,
    number: u64,
) -> Result<bool, FaceFault> {
    feed(rt, publisher, on(copied(key), Op::Delete)?)?;
    let dirty = look(beside, key) == Ok(Shown::Dirty);
    feed(rt, publisher, acknowledged(number))?;
    Ok(dirty && look(beside, key) == Ok(Shown::Nothing))
}

// The same for each of these, after the update of this number.
fn delete_each<R: Wait>(
    rt: &R,
    publisher: &mut Publisher,
    beside: &mut Reader,
    keys: &[Key],
    last: u64,
) -> Result<bool, FaceFault> {
    let mut shown = true;
    let mut number = last;
    for key in keys {
        number = number.wrapping_add(1);
        shown &= delete_one(rt, publisher, beside, key, number)?;
    }
    Ok(shown)
}

// All keys are set, and then some deleted.
fn fill_and_delete<R: Wait>(
    rt: &R,
    alloc: Global,
    publisher: &mut Publisher,
    keys: &[Key],
) -> Result<bool, FaceFault> {
    fill(rt, alloc, publisher, keys)?;
    let some = keys.get(..DELETED).unwrap_or_default();
    let mut beside = publisher.reader()?;
    let shown = delete_each(rt, publisher, &mut beside, some, keys.len() as u64);
    drop(beside);
    Ok(some.len() == DELETED && shown?)
}

// The same with n keys, at a server that isn't the last one.
fn many<R: Wait>(rt: &R, alloc: Global, count: u32) -> Result<bool, FaceFault> {
    let keys = keys(alloc, count)?;
    let mut publisher = opened(rt, alloc, 2, None)?;
    let shown = fill_and_delete(rt, alloc, &mut publisher, keys.as_slice());
    publisher.end(rt);
    shown
}

#[test]
fn many_keys_some_of_them_deleted(rt: HostRuntime) -> Result<(), Fail> {
    holds(many(&rt, rt.alloc(), 100_000))
}
