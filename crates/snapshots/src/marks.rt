//! What servers compare before they start from tables.

/// The end of a snapshot: how many updates its table has taken, and the sum of the snapshot's bytes. Of two tables with
/// different marks one is another. That equal ones are of one table is likely, and not proved.
#[derive(Clone, Copy, Debug, Drop, Eq, PartialEq)]
pub struct TableMark {
    /// The table's count.
    pub count: u64,
    /// The sum (Adler-32) of all bytes before it.
    pub sum: u32,
}
