//! How far a master is with the one decision of its epoch.

use crate::members::Members;

/// How far a master is with the one decision of its epoch.
#[derive(Clone, Copy, Debug, PartialEq, Eq)]
pub enum Stage {
    /// It looks at what the members have accepted.
    Looking,
    /// It has the members go on.
    Resuming,
    /// It has the members accept these as the members of the next generation.
    Proposing(Members),
    /// They all have: it has them switch to these, who begin with a table of so many updates.
    Switching(Members, u64),
    /// In an earlier epoch some member has switched to these already: it has the others switch too.
    Finishing(Members, u64),
}
