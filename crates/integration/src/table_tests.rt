//! Calls of a plain table, and what one operation decides.

use crate::making::{Fault, all_hold, holds, key};
use std::alloc::Global;
use std::test::Fail;
use table::{Change, Item, Key, LIMIT, Op, Reply, SharedBytes, Table, Target, decide};

// Whether these bytes make a key of the same bytes, or none.
fn is_key(alloc: Global, bytes: &[u8], wanted: bool) -> Result<bool, Fault> {
    match Key::new(alloc, bytes)? {
        Some(key) => Ok(wanted && key.bytes() == bytes),
        None => Ok(!wanted),
    }
}

// Some bytes, and whether they make a key.
static KEYS: [(&[u8], bool); 6] = [
    (b"a", true),
    (b"", false),
    (b"a b", false),
    (b"a\r", false),
    (b"\x7f", false),
    (b"\x21\x7e\x80\xff", true),
];

// The first of these that isn't as it says.
fn other_key(alloc: Global, rows: &[(&[u8], bool)]) -> Result<Option<usize>, Fault> {
    let mut place = 0_usize;
    for row in rows {
        let (bytes, wanted) = *row;
        if !is_key(alloc, bytes, wanted)? {
            return Ok(Some(place));
        }
        place = place.wrapping_add(1);
    }
    Ok(None)
}

// Whether a key may have 250 bytes, and not 251.
fn is_bounded(alloc: Global) -> Result<bool, Fault> {
    let long = vec![in alloc; b'k'; 251]?;
    Ok(is_key(alloc, &long[..250], true)? && is_key(alloc, long.as_slice(), false)?)
}

#[test]
fn a_key_has_1_to_250_bytes_and_no_blank(rt: HostRuntime) -> Result<(), Fail> {
    holds(is_bounded(rt.alloc()))?;
    all_hold(other_key(rt.alloc(), &KEYS))
}

// What puts some data at a key, with flags or without.
#[derive(Clone, Copy)]
enum Verb {
    Set,
    Add,
    Replace,
    Append,
    Prepend,
}

// What is asked.
#[derive(Clone, Copy)]
enum Ask {
    Read,
    Delete,
    Flush,
    Puts(Verb, u32, &'static [u8]),
    // A set of this many bytes.
    Sets(usize),
}

fn put_of(verb: Verb, flags: u32, bytes: SharedBytes) -> Op {
    match verb {
        Verb::Set => Op::Set(flags, bytes),
        Verb::Add => Op::Add(flags, bytes),
        Verb::Replace => Op::Replace(flags, bytes),
        Verb::Append => Op::Append(bytes),
        Verb::Prepend => Op::Prepend(bytes),
    }
}

fn block_of_size(alloc: Global, size: usize) -> Result<SharedBytes, Fault> {
    let data = vec![in alloc; b'x'; size]?;
    Ok(SharedBytes::copy_from_slice(alloc, data.as_slice())?)
}

fn op_of(alloc: Global, ask: Ask) -> Result<Op, Fault> {
    match ask {
        Ask::Read => Ok(Op::Read),
        Ask::Delete => Ok(Op::Delete),
        Ask::Flush => Ok(Op::Flush),
        Ask::Puts(verb, flags, data) => {
            let bytes = SharedBytes::copy_from_slice(alloc, data)?;
            Ok(put_of(verb, flags, bytes))
        }
        Ask::Sets(size) => Ok(Op::Set(0, block_of_size(alloc, size)?)),
    }
}

// Whether an operation fits, is of one key and not of all of them, and is an update.
#[derive(Clone, Copy)]
struct Kind {
    fits: bool,
    is_of_one: bool,
    is_update: bool,
}

fn is_of_kind(op: &Op, one: &Target, kind: Kind) -> bool {
    let all = Target::All;
    let right = op.fits() == kind.fits
        && op.suits(one) == kind.is_of_one
        && op.suits(&all) != kind.is_of_one
        && op.is_update() == kind.is_update;
    drop(all);
    right
}

// The first of these that is of another kind.
fn other_kind(alloc: Global, one: &Target, rows: &[(Ask, Kind)]) -> Result<Option<usize>, Fault> {
    let mut place = 0_usize;
    for row in rows {
        let (ask, kind) = *row;
        let op = op_of(alloc, ask)?;
        let right = is_of_kind(&op, one, kind);
        drop(op);
        if !right {
            return Ok(Some(place));
        }
        place = place.wrapping_add(1);
    }
    Ok(None)
}

fn other_kind_on_a(alloc: Global, rows: &[(Ask, Kind)]) -> Result<Option<usize>, Fault> {
    let one = Target::One(key(alloc, b"a")?);
    let other = other_kind(alloc, &one, rows);
    drop(one);
    other
}

static DATA: [(Ask, Kind); 3] = [
    (
        Ask::Read,
        Kind {
            fits: true,
            is_of_one: true,
            is_update: false,
        },
    ),
    (
        Ask::Sets(LIMIT),
        Kind {
            fits: true,
            is_of_one: true,
            is_update: true,
        },
    ),
    (
        Ask::Sets(LIMIT + 1),
        Kind {
            fits: false,
            is_of_one: true,
            is_update: true,
        },
    ),
];

#[test]
fn data_may_have_one_mebibyte(rt: HostRuntime) -> Result<(), Fail> {
    all_hold(other_kind_on_a(rt.alloc(), &DATA))
}

static TARGETS: [(Ask, Kind); 2] = [
    (
        Ask::Flush,
        Kind {
            fits: true,
            is_of_one: false,
            is_update: true,
        },
    ),
    (
        Ask::Delete,
        Kind {
            fits: true,
            is_of_one: true,
            is_update: true,
        },
    ),
];

#[test]
fn only_a_flush_is_of_all_keys(rt: HostRuntime) -> Result<(), Fail> {
    all_hold(other_kind_on_a(rt.alloc(), &TARGETS))
}

// Which reply comes: of an item its flags, its data and its unique.
#[derive(Clone, Copy)]
enum Answer {
    Stored,
    NotStored,
    NotFound,
    Deleted,
    TooLarge,
    Flushed,
    Nothing,
    Item(u32, &'static [u8], u64),
    // An item without flags, of this many bytes.
    Large(usize, u64),
}

fn is_answer(reply: &Reply, wanted: Answer) -> bool {
    match wanted {
        Answer::Stored => matches!(reply, Reply::Stored),
        Answer::NotStored => matches!(reply, Reply::NotStored),
        Answer::NotFound => matches!(reply, Reply::NotFound),
        Answer::Deleted => matches!(reply, Reply::Deleted),
        Answer::TooLarge => matches!(reply, Reply::TooLarge),
        Answer::Flushed => matches!(reply, Reply::Flushed),
        Answer::Nothing => matches!(reply, Reply::Value(None)),
        Answer::Item(flags, data, unique) => match reply {
            Reply::Value(Some(item)) => item.flags() == flags
                && item.bytes().as_slice() == data
                && item.unique() == unique,
            _ => false,
        },
        Answer::Large(size, unique) => match reply {
            Reply::Value(Some(item)) => item.flags() == 0
                && item.bytes().len() == size
                && item.unique() == unique,
            _ => false,
        },
    }
}

// What is asked of the key of these bytes, or of all keys if it is a flush, and the answer.
type Step = (&'static [u8], Ask, Answer);

// Whether a call that fits and suits is answered so.
fn answers(table: &mut Table, target: &Target, op: &Op, wanted: Answer) -> Result<bool, Fault> {
    if !op.fits() || !op.suits(target) {
        return Err(Fault::Refused);
    }
    let reply = table.call(target, op)?;
    let right = is_answer(&reply, wanted);
    drop(reply);
    Ok(right)
}

fn target_of(alloc: Global, name: &[u8], ask: Ask) -> Result<Target, Fault> {
    match ask {
        Ask::Flush => Ok(Target::All),
        _ => Ok(Target::One(key(alloc, name)?)),
    }
}

fn goes(alloc: Global, table: &mut Table, step: Step) -> Result<bool, Fault> {
    let (name, ask, wanted) = step;
    let target = target_of(alloc, name, ask)?;
    match op_of(alloc, ask) {
        Ok(op) => {
            let went = answers(table, &target, &op, wanted);
            drop(op);
            drop(target);
            went
        }
        Err(fault) => {
            drop(target);
            Err(fault)
        }
    }
}

// The first step that goes otherwise than it says.
fn other_step(alloc: Global, table: &mut Table, steps: &[Step]) -> Result<Option<usize>, Fault> {
    let mut place = 0_usize;
    for step in steps {
        if !goes(alloc, table, *step)? {
            return Ok(Some(place));
        }
        place = place.wrapping_add(1);
    }
    Ok(None)
}

// The same of a new table.
fn other_of_new(alloc: Global, steps: &[Step]) -> Result<Option<usize>, Fault> {
    let mut table = Table::new(alloc);
    let other = other_step(alloc, &mut table, steps);
    drop(table);
    other
}

static NUMBERED: [Step; 7] = [
    (b"a", Ask::Read, Answer::Nothing),
    (b"a", Ask::Puts(Verb::Set, 5, b"xyz"), Answer::Stored),
    (b"a", Ask::Read, Answer::Item(5, b"xyz", 1)),
    (b"b", Ask::Puts(Verb::Set, 5, b"xyz"), Answer::Stored),
    (b"b", Ask::Read, Answer::Item(5, b"xyz", 2)),
    (b"a", Ask::Puts(Verb::Set, 5, b"xyz"), Answer::Stored),
    (b"a", Ask::Read, Answer::Item(5, b"xyz", 3)),
];

#[test]
fn a_table_numbers_its_updates(rt: HostRuntime) -> Result<(), Fail> {
    all_hold(other_of_new(rt.alloc(), &NUMBERED))
}

static ADDED: [Step; 5] = [
    (b"a", Ask::Puts(Verb::Replace, 1, b"1"), Answer::NotStored),
    (b"a", Ask::Puts(Verb::Add, 2, b"2"), Answer::Stored),
    (b"a", Ask::Puts(Verb::Add, 3, b"3"), Answer::NotStored),
    (b"a", Ask::Puts(Verb::Replace, 4, b"4"), Answer::Stored),
    (b"a", Ask::Read, Answer::Item(4, b"4", 4)),
];

#[test]
fn add_and_replace(rt: HostRuntime) -> Result<(), Fail> {
    all_hold(other_of_new(rt.alloc(), &ADDED))
}

// An item of a byte less than the limit takes one byte more, and then none.
static GROWN: [Step; 5] = [
    (b"a", Ask::Sets(LIMIT - 1), Answer::Stored),
    (b"a", Ask::Puts(Verb::Append, 0, b"y"), Answer::Stored),
    (b"a", Ask::Puts(Verb::Append, 0, b"y"), Answer::TooLarge),
    (b"a", Ask::Puts(Verb::Prepend, 0, b"y"), Answer::TooLarge),
    (b"a", Ask::Read, Answer::Large(LIMIT, 2)),
];

#[test]
fn an_item_does_not_outgrow_the_limit(rt: HostRuntime) -> Result<(), Fail> {
    all_hold(other_of_new(rt.alloc(), &GROWN))
}

static DELETED: [Step; 6] = [
    (b"a", Ask::Delete, Answer::NotFound),
    (b"a", Ask::Puts(Verb::Set, 0, b""), Answer::Stored),
    (b"a", Ask::Delete, Answer::Deleted),
    (b"a", Ask::Read, Answer::Nothing),
    (b"a", Ask::Puts(Verb::Set, 0, b"x"), Answer::Stored),
    (b"a", Ask::Read, Answer::Item(0, b"x", 4)),
];

#[test]
fn delete(rt: HostRuntime) -> Result<(), Fail> {
    all_hold(other_of_new(rt.alloc(), &DELETED))
}

static FLUSHED: [Step; 7] = [
    (b"a", Ask::Puts(Verb::Set, 0, b"1"), Answer::Stored),
    (b"b", Ask::Puts(Verb::Set, 0, b"2"), Answer::Stored),
    (b"", Ask::Flush, Answer::Flushed),
    (b"a", Ask::Read, Answer::Nothing),
    (b"b", Ask::Read, Answer::Nothing),
    (b"a", Ask::Puts(Verb::Set, 0, b"3"), Answer::Stored),
    (b"a", Ask::Read, Answer::Item(0, b"3", 4)),
];

#[test]
fn flush_all(rt: HostRuntime) -> Result<(), Fail> {
    all_hold(other_of_new(rt.alloc(), &FLUSHED))
}

// Whether a change puts this item, or keeps what is there.
fn changes_to(change: &Change, put: Option<&Item>) -> bool {
    match put {
        Some(wanted) => matches!(change, Change::Put(item) if item == wanted),
        None => matches!(change, Change::Keep),
    }
}

// Whether an operation of this number, on a key that has this item or none, is answered so and changes the key so.
fn decides(
    alloc: Global,
    held: Option<&Item>,
    ask: Ask,
    number: u64,
    wanted: Answer,
    put: Option<&Item>,
) -> Result<bool, Fault> {
    let op = op_of(alloc, ask)?;
    let right = is_decided(alloc, held, &op, number, wanted, put);
    drop(op);
    right
}

// The same of an operation that fits.
fn is_decided(
    alloc: Global,
    held: Option<&Item>,
    op: &Op,
    number: u64,
    wanted: Answer,
    put: Option<&Item>,
) -> Result<bool, Fault> {
    if !op.fits() || number == 0 {
        return Err(Fault::Refused);
    }
    let (reply, change) = decide(alloc, held, op, number)?;
    let right = is_answer(&reply, wanted) && changes_to(&change, put);
    drop(reply);
    drop(change);
    Ok(right)
}

// Whether a set of a key without an item puts this one, and a read of a key with it shows it.
fn puts_and_shows(alloc: Global) -> Result<bool, Fault> {
    let bytes = SharedBytes::copy_from_slice(alloc, b"xyz")?;
    let item = Item::new(alloc, 5, bytes, 7)?;
    let set = Ask::Puts(Verb::Set, 5, b"xyz");
    let shown = Answer::Item(5, b"xyz", 7);
    Ok(
        decides(alloc, None, set, 7, Answer::Stored, Some(&item))?
            && decides(alloc, Some(&item), Ask::Read, 8, shown, None)?,
    )
}

#[test]
fn a_decision_puts_and_shows_an_item(rt: HostRuntime) -> Result<(), Fail> {
    holds(puts_and_shows(rt.alloc()))
}
