//! How a test ends.

use std::fmt::Debug;
use std::test::Fail;

/// A test's outcome: what was looked for holds.
pub(crate) fn holds<E: Debug + Drop>(found: Result<bool, E>) -> Result<(), Fail> {
    match found {
        Ok(true) => Ok(()),
        Ok(false) => Err("it holds".into()),
        Err(fault) => Err(fault.into()),
    }
}

/// A test's outcome: no step goes otherwise than it says. If one does, this is its place.
pub(crate) fn all_hold<E: Debug + Drop>(otherwise: Result<Option<usize>, E>) -> Result<(), Fail> {
    match otherwise {
        Ok(None) => Ok(()),
        Ok(Some(place)) => Err(Fail::new(format_args!("step {place}, from 0, goes as it says"))),
        Err(fault) => Err(fault.into()),
    }
}
