//! Keys, data and calls of tests, and how a test ends.
//!
//! Most tests are a list of steps or rows, which one small loop goes through: so there are few functions to prove.

use std::alloc::{AllocError, AllocFailed, Global};
use std::test::Fail;
use table::{Call, Key, Op, SharedBytes, TableFault, Target};

/// Why a helper of a test has no answer.
#[derive(Clone, Copy, Debug)]
pub(crate) enum Fault {
    /// Memory ran out.
    Memory,
    /// A call was refused for something else, or may not be made.
    Refused,
}

impl From<AllocError> for Fault {
    fn from(_e: AllocError) -> Fault {
        Fault::Memory
    }
}

impl<T: Drop> From<AllocFailed<T>> for Fault {
    fn from(_e: AllocFailed<T>) -> Fault {
        Fault::Memory
    }
}

impl From<TableFault> for Fault {
    fn from(fault: TableFault) -> Fault {
        match fault {
            TableFault::Memory => Fault::Memory,
            TableFault::Exhausted => Fault::Refused,
        }
    }
}

/// A test's outcome: what was looked for holds.
pub(crate) fn holds(found: Result<bool, Fault>) -> Result<(), Fail> {
    match found {
        Ok(true) => Ok(()),
        Ok(false) => Err("it holds".into()),
        Err(fault) => Err(fault.into()),
    }
}

/// A test's outcome: no step went otherwise than it says. If one did, this is how many went as they say before it.
pub(crate) fn all_hold(otherwise: Result<Option<usize>, Fault>) -> Result<(), Fail> {
    match otherwise {
        Ok(None) => Ok(()),
        Ok(Some(place)) => Err(Fail::new(format_args!("step {place}, from 0, goes as it says"))),
        Err(fault) => Err(fault.into()),
    }
}

/// A test's outcome: all of these hold.
pub(crate) fn all_true(found: &[bool]) -> Result<(), Fail> {
    let mut place = 0_usize;
    for holds in found {
        if !*holds {
            return all_hold(Ok(Some(place)));
        }
        place = place.wrapping_add(1);
    }
    Ok(())
}

/// The key of these bytes, which make one.
pub(crate) fn key(alloc: Global, name: &[u8]) -> Result<Key, Fault> {
    match Key::new(alloc, name)? {
        Some(key) => Ok(key),
        None => Err(Fault::Refused),
    }
}

// (Who owns an operation has few exits: each costs a proof for each kind of it. So the key is made before.)
pub(crate) fn on(key: Key, op: Op) -> Call {
    Call {
        target: Target::One(key),
        op,
    }
}

/// A set of a key to some data.
pub(crate) fn set(alloc: Global, name: &[u8], data: &[u8]) -> Result<Call, Fault> {
    let bytes = SharedBytes::copy_from_slice(alloc, data)?;
    let key = key(alloc, name)?;
    Ok(on(key, Op::Set(0, bytes)))
}
