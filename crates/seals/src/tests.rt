//! Two members, and what their links carry.

use crate::{Marker, Numbers, Seal, Table};
use std::test::Fail;
use successions::{Acceptance, Members, Phase};

// Sealed in this epoch.
fn sealed(epoch: u64) -> Phase {
    let next = Members { processes: [0; 16] };
    Phase::Sealed(Acceptance { epoch, next })
}

// A table of so many updates, all committed, with nothing unfinished.
fn rested(last: u64) -> Table {
    let numbers = Numbers {
        view: 0,
        last,
        committed: last,
    };
    Table {
        numbers,
        busy: false,
    }
}

// A table with something unfinished.
fn busy(last: u64) -> Table {
    Table {
        numbers: rested(last).numbers,
        busy: true,
    }
}

// Member i of two, with one thread, sealed in this epoch.
fn member(id: u8, epoch: u64) -> Seal {
    let mut seal = Seal::new(3, id, 3, 1);
    seal.follow(sealed(epoch));
    seal
}

// A peer's marker is heard, if there is one.
fn hear(seal: &mut Seal, from: u8, marker: Option<Marker>) -> bool {
    match marker {
        Some(marker) => {
            seal.hear_peer(from, marker);
            true
        }
        None => false,
    }
}

// One waits for its thread, for what is unfinished, and for its peer, who passes one more update on.
fn fences() -> bool {
    let mut one = member(0, 7);
    let mut other = member(1, 7);
    let early = one.mark(rested(5)).is_some();
    one.hear_thread(0, 7);
    other.hear_thread(0, 7);
    let unfinished = one.mark(busy(5)).is_some();
    let first = hear(&mut other, 0, one.mark(rested(5)));
    let again = one.mark(rested(5)).is_some();
    let behind = other.standing(rested(6)).idle;
    let alone = one.standing(rested(6)).idle;
    let second = hear(&mut other, 0, one.mark(rested(6)));
    let back = hear(&mut one, 1, other.mark(rested(6)));
    let idle = one.standing(rested(6)).idle && other.standing(rested(6)).idle;
    !early && !unfinished && first && !again && !behind && !alone && second && back && idle
}

// A seal that was left doesn't come back, and in a later one nothing has come.
fn leaves() -> bool {
    let mut one = member(0, 7);
    one.hear_thread(0, 7);
    one.follow(Phase::Serving);
    let open = one.may_begin();
    one.follow(sealed(7));
    let held = !one.may_begin() && one.mark(rested(5)).is_none();
    one.follow(sealed(8));
    one.hear_thread(0, 7);
    let earlier = one.mark(rested(5)).is_some();
    one.hear_thread(0, 8);
    open && held && !earlier && one.epoch() == 8 && one.mark(rested(5)).is_some()
}

// Who is gone isn't waited for.
fn goes_alone() -> bool {
    let mut one = member(0, 7);
    one.hear_thread(0, 7);
    let mut table = rested(5);
    let waits = !one.standing(table).idle && one.is_peer(0, 1);
    table.numbers.view = 2;
    waits && one.standing(table).idle && !one.is_peer(2, 1) && !one.is_peer(0, 0)
}

// What was looked for holds.
fn holds(found: bool) -> Result<(), Fail> {
    if found {
        Ok(())
    } else {
        Err("it holds".into())
    }
}

#[test]
fn a_member_waits_for_its_peers(rt: HostRuntime) -> Result<(), Fail> {
    holds(fences() && goes_alone())
}

#[test]
fn a_seal_is_left_for_good(rt: HostRuntime) -> Result<(), Fail> {
    holds(leaves())
}
