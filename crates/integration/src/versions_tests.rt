//! A store, and beside it a plain body that forgets nothing.
ghost use Rattle.std.specs.Prelude.{◌≤◌};

use crate::making::{Fault, all_hold, key};
use std::alloc::Global;
use std::test::Fail;
use table::{Change, Item, Key, LIMIT, Reply, SharedBytes, Target};
use versions::{Entry, Store, StoreFault};

impl From<StoreFault> for Fault {
    fn from(fault: StoreFault) -> Fault {
        match fault {
            StoreFault::Memory => Fault::Memory,
        }
    }
}

// What one number made of a key. An item says itself of which number it is.
#[derive(Clone, Copy)]
struct Version {
    number: u64,
    has_item: bool,
}

// The plain body: the versions of each key, by its place, and the numbers of the clears. It forgets none.
#[derive(Drop)]
struct Plain {
    versions: Vec<Vec<Version>>,
    clears: Vec<u64>,
    acked: u64,
}

impl Plain {
    // The last version of a key up to `n`, or number 0 without an item.
    fn version(&self, place: usize, n: u64) -> Version {
        let none = Version {
            number: 0,
            has_item: false,
        };
        let Some(versions) = self.versions.get(place) else {
            return none;
        };
        let after = versions.partition_point(|version| version.number <= n);
        match versions.get(after.wrapping_sub(1)) {
            Some(version) => *version,
            None => none,
        }
    }

    // The last clear up to `n`, or 0.
    fn cleared(&self, n: u64) -> u64 {
        for number in self.clears.iter().rev() {
            if *number <= n {
                return *number;
            }
        }
        0
    }

    // The number of the item that a key has at `n`, if it has one.
    fn at(&self, place: usize, n: u64) -> Option<u64> {
        let version = self.version(place, n);
        if version.has_item && version.number >= self.cleared(n) {
            Some(version.number)
        } else {
            None
        }
    }

    fn is_clean(&self, place: usize) -> bool {
        self.version(place, u64::MAX).number <= self.acked && self.cleared(u64::MAX) <= self.acked
    }

    // A refused update makes no version.
    fn note(&mut self, place: usize, number: u64, update: Update) -> Result<(), Fault> {
        match update {
            Update::Put => self.add(place, number, true),
            Update::Delete => self.add(place, number, false),
            Update::Refuse => Ok(()),
            Update::Clear => Ok(self.clears.push(number)?),
        }
    }

    fn add(&mut self, place: usize, number: u64, has_item: bool) -> Result<(), Fault> {
        match self.versions.get_mut(place) {
            Some(versions) => Ok(versions.push(Version { number, has_item })?),
            None => Err(Fault::Refused),
        }
    }
}

// What an update does. All but a clear are of one key.
#[derive(Clone, Copy)]
enum Update {
    Put,
    Delete,
    Refuse,
    Clear,
}

// The entry that puts an item whose bytes are its number.
fn put_of(alloc: Global, number: u64, key: &Key) -> Result<Entry, Fault>
    requires { 1 ≤ number }
{
    let bytes = SharedBytes::copy_from_slice(alloc, &number.to_be_bytes())?;
    if bytes.len() > LIMIT {
        return Err(Fault::Refused);
    }
    let target = Target::One(key.clone()?);
    let item = Item::new(alloc, 7, bytes, number)?;
    Ok(Entry::new(
        alloc,
        number,
        3,
        1,
        target,
        Reply::Stored,
        Change::Put(item),
    )?)
}

fn entry_of(alloc: Global, number: u64, key: &Key, update: Update) -> Result<Entry, Fault> {
    if number == 0 {
        return Err(Fault::Refused);
    }
    match update {
        Update::Put => put_of(alloc, number, key),
        Update::Delete => {
            let target = Target::One(key.clone()?);
            Ok(Entry::new(alloc, number, 3, 1, target, Reply::Deleted, Change::Drop)?)
        }
        Update::Refuse => {
            let target = Target::One(key.clone()?);
            Ok(Entry::new(alloc, number, 3, 1, target, Reply::NotStored, Change::Keep)?)
        }
        Update::Clear => {
            Ok(Entry::new(
                alloc,
                number,
                3,
                1,
                Target::All,
                Reply::Flushed,
                Change::Clear,
            )?)
        }
    }
}

// Whether an item is the one that was put at this number, or there is none.
fn is_item(item: Option<&Item>, number: Option<u64>) -> bool {
    match (item, number) {
        (Some(item), Some(number)) => item.flags() == 7
            && item.unique() == number
            && item.bytes().as_slice() == number.to_be_bytes().as_slice(),
        (None, None) => true,
        (Some(_), None) | (None, Some(_)) => false,
    }
}

fn push(store: &mut Store, entry: Entry) -> Result<(), Fault> {
    let last = store.last();
    if last == u64::MAX || entry.number() != last + 1 {
        drop(entry);
        return Err(Fault::Refused);
    }
    store.push(entry)?;
    Ok(())
}

// A store, the plain body beside it, and the keys of both.
#[derive(Drop)]
struct Pair {
    alloc: Global,
    store: Store,
    plain: Plain,
    keys: Vec<Key>,
}

impl Pair {
    fn update(&mut self, place: usize, update: Update) -> Result<(), Fault> {
        let Some(key) = self.keys.get(place) else {
            return Err(Fault::Refused);
        };
        let number = self.store.last().wrapping_add(1);
        let entry = entry_of(self.alloc, number, key, update)?;
        push(&mut self.store, entry)?;
        self.plain.note(place, number, update)
    }

    fn ack(&mut self, n: u64) -> Result<(), Fault> {
        if n < self.store.acked() || self.store.last() < n {
            return Err(Fault::Refused);
        }
        self.store.ack(n);
        self.plain.acked = n;
        Ok(())
    }

    fn drop_to(&mut self, n: u64) -> Result<(), Fault> {
        if n < self.store.floor() || self.store.acked() < n {
            return Err(Fault::Refused);
        }
        self.store.drop_to(n);
        Ok(())
    }

    // Whether both bodies show the same of a key, at a number that is still open too. Of a clean key the store shows
    // the newest version, and none of a dirty one.
    fn agree(&self, place: usize, n: u64) -> Result<bool, Fault> {
        let Some(key) = self.keys.get(place) else {
            return Err(Fault::Refused);
        };
        if n < self.store.floor() || self.store.last() < n {
            return Err(Fault::Refused);
        }
        let newest = self.plain.at(place, u64::MAX);
        let is_clean = self.plain.is_clean(place);
        let is_shown = match self.store.clean_version(key) {
            Some(item) => is_clean && is_item(item, newest),
            None => !is_clean,
        };
        Ok(
            is_shown
                && self.store.is_clean(key) == is_clean
                && is_item(self.store.newest(key), newest)
                && is_item(self.store.at(key, n), self.plain.at(place, n)),
        )
    }

    // Whether both agree on each of the keys, at the floor, at the last number and between them.
    fn all_agree(&self) -> Result<bool, Fault> {
        let (floor, last) = (self.store.floor(), self.store.last());
        let mut agreed = true;
        for place in 0..self.keys.len() {
            for n in [floor, floor / 2 + last / 2, last] {
                agreed &= self.agree(place, n)?;
            }
        }
        Ok(agreed)
    }

    // Whether a key is clean or isn't, and its newest version is an item or isn't.
    fn shows(&self, place: usize, clean: bool, has_item: bool) -> bool {
        match self.keys.get(place) {
            Some(key) => self.store.is_clean(key) == clean
                && self.store.newest(key).is_some() == has_item,
            None => false,
        }
    }
}

// This many sets of the first key, none of them acknowledged, and then each acknowledged and dropped. Whether both
// bodies agreed all along, and in the end the key is clean and no entry is left.
fn settles(pair: &mut Pair, count: u64) -> Result<bool, Fault> {
    let mut agreed = true;
    for i in 0..count {
        pair.update(0, Update::Put)?;
        agreed &= pair.agree(0, i / 2)?;
    }
    for n in 1..=count {
        pair.ack(n)?;
        agreed &= pair.agree(0, n)?;
        pair.drop_to(n)?;
        agreed &= pair.agree(0, n)?;
    }
    Ok(agreed && pair.shows(0, true, true) && pair.store.floor() == count)
}

// What the i-th update of a key is: mostly a set, now and then a delete, a refused one or a clear.
fn ith_update(i: u64) -> Update {
    match i % 701 {
        700 => Update::Clear,
        r => match r % 5 {
            3 => Update::Delete,
            4 => Update::Refuse,
            _ => Update::Put,
        },
    }
}

// An update at two keys of three.
fn update_some(pair: &mut Pair, round: u64) -> Result<(), Fault> {
    for place in 0..pair.keys.len() {
        let i = (place as u64)
            .wrapping_mul(7)
            .wrapping_add(round.wrapping_mul(31));
        if i % 3 != 1 {
            pair.update(place, ith_update(i))?;
        }
    }
    Ok(())
}

// Rounds of updates; some entries stay open after each.
fn all_agree_in_rounds(pair: &mut Pair, rounds: u64) -> Result<bool, Fault> {
    let mut agreed = true;
    for round in 0..rounds {
        update_some(pair, round)?;
        agreed &= pair.all_agree()?;
        let acked = pair.store.acked() / 2 + pair.store.last() / 2;
        pair.ack(acked)?;
        agreed &= pair.all_agree()?;
        let floor = pair.store.floor() / 2 + acked / 2;
        pair.drop_to(floor)?;
        agreed &= pair.all_agree()?;
    }
    Ok(agreed)
}

// Whether an entry has this number, stands for the call 1 of server 3, and is of this key: number 2 a refused update,
// and number 3 a delete.
fn is_open(entry: &Entry, number: u64, key: &Key) -> bool {
    let is_done = match number {
        2 => matches!(entry.reply(), Reply::NotStored) && matches!(entry.change(), Change::Keep),
        3 => matches!(entry.reply(), Reply::Deleted) && matches!(entry.change(), Change::Drop),
        _ => false,
    };
    is_done
        && entry.number() == number
        && entry.origin() == 3
        && entry.id() == 1
        && matches!(entry.target(), Target::One(found) if found == key)
}

// Whether a copy of an entry equals it.
fn is_copied(entry: &Entry) -> Result<bool, Fault> {
    let copy = entry.clone()?;
    let equal = copy.number() == entry.number()
        && copy.origin() == entry.origin()
        && copy.id() == entry.id()
        && copy.target() == entry.target()
        && copy.reply() == entry.reply()
        && copy.change() == entry.change();
    drop(copy);
    Ok(equal)
}

// Whether the entries above 1 are those of a refused update and a delete of this key, in order, and no other.
fn shows_open(store: &Store, key: &Key) -> Result<bool, Fault> {
    if 1 < store.floor() || store.last() < 1 {
        return Err(Fault::Refused);
    }
    let mut number = 1_u64;
    for entry in store.entries_after(1) {
        number = number.wrapping_add(1);
        if !is_open(entry, number, key) || !is_copied(entry)? {
            return Ok(false);
        }
    }
    Ok(number == 3)
}

// What is done with a pair, and looked for. A key is named by its place.
#[derive(Clone, Copy)]
enum Step {
    Updates(usize, Update),
    Acks(u64),
    Drops(u64),
    // The key is clean or isn't, and its newest version is an item or isn't.
    Shows(usize, bool, bool),
    // A refused update and a delete of the first key are open.
    ShowsOpen,
    // This many sets of the first key.
    Settles(u64),
    // This many rounds of updates of all keys.
    Rounds(u64),
}

fn goes(pair: &mut Pair, step: Step) -> Result<bool, Fault> {
    match step {
        Step::Updates(place, update) => {
            pair.update(place, update)?;
            Ok(true)
        }
        Step::Acks(n) => {
            pair.ack(n)?;
            Ok(true)
        }
        Step::Drops(n) => {
            pair.drop_to(n)?;
            Ok(true)
        }
        Step::Shows(place, clean, has_item) => Ok(pair.shows(place, clean, has_item)),
        Step::ShowsOpen => match pair.keys.first() {
            Some(key) => shows_open(&pair.store, key),
            None => Err(Fault::Refused),
        },
        Step::Settles(count) => settles(pair, count),
        Step::Rounds(rounds) => all_agree_in_rounds(pair, rounds),
    }
}

// The first step that goes otherwise than it says.
fn other_step(pair: &mut Pair, steps: &[Step]) -> Result<Option<usize>, Fault> {
    let mut place = 0_usize;
    for step in steps {
        if !goes(pair, *step)? {
            return Ok(Some(place));
        }
        place = place.wrapping_add(1);
    }
    Ok(None)
}

fn nth_key(alloc: Global, i: u32) -> Result<Key, Fault> {
    let name = format!(in alloc; "key{i}")?;
    key(alloc, name.as_bytes())
}

// An empty store, for this many keys.
fn empty(alloc: Global, count: u32) -> Result<Pair, Fault> {
    let mut keys = Vec::new(alloc);
    let mut versions = Vec::new(alloc);
    for i in 0..count {
        keys.push(nth_key(alloc, i)?)?;
        versions.push(Vec::new(alloc))?;
    }
    let plain = Plain {
        versions,
        clears: Vec::new(alloc),
        acked: 0,
    };
    Ok(Pair {
        alloc,
        store: Store::new(alloc),
        plain,
        keys,
    })
}

// The first step of a new pair with this many keys that goes otherwise than it says.
fn other_of_new(alloc: Global, count: u32, steps: &[Step]) -> Result<Option<usize>, Fault> {
    let mut pair = empty(alloc, count)?;
    let other = other_step(&mut pair, steps);
    drop(pair);
    other
}

#[test]
fn many_versions_of_one_key(rt: HostRuntime) -> Result<(), Fail> {
    all_hold(other_of_new(rt.alloc(), 1, &[Step::Settles(10_000)]))
}

#[test]
fn many_keys_and_clears(rt: HostRuntime) -> Result<(), Fail> {
    all_hold(other_of_new(rt.alloc(), 1_000, &[Step::Rounds(12)]))
}

// The clear takes both keys' items, and leaves neither key clean. One of them is clean again once the clear is
// acknowledged and forgotten.
static CLEARED: [Step; 9] = [
    Step::Updates(0, Update::Put),
    Step::Acks(1),
    Step::Shows(0, true, true),
    Step::Updates(0, Update::Clear),
    Step::Shows(0, false, false),
    Step::Shows(1, false, false),
    Step::Acks(2),
    Step::Drops(2),
    Step::Shows(0, true, false),
];

#[test]
fn a_clear_is_a_version_of_every_key(rt: HostRuntime) -> Result<(), Fail> {
    all_hold(other_of_new(rt.alloc(), 2, &CLEARED))
}

// The first of three updates of a key is acknowledged and forgotten; two stay open.
static OPEN: [Step; 6] = [
    Step::Updates(0, Update::Put),
    Step::Updates(0, Update::Refuse),
    Step::Updates(0, Update::Delete),
    Step::Acks(1),
    Step::Drops(1),
    Step::ShowsOpen,
];

#[test]
fn open_entries_are_shown_in_order(rt: HostRuntime) -> Result<(), Fail> {
    all_hold(other_of_new(rt.alloc(), 1, &OPEN))
}
