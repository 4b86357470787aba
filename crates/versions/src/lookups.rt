//! What the last entry that set a key and the last clear make of its item.
ghost use Rattle.std.specs.Prelude.{◌≡◌, ◌+◌, length};
ghost use Rattle.std.specs.Option.{option_copied};
ghost use Rattle.versions.specs.Numbers.{is_above, IsWithin};
ghost use Rattle.versions.specs.Records.{item_from, item_put_at};

use crate::Entry;
use std::collections::VecDeque;
use table::Item;

/// Whether a number is there and above `n`.
pub(crate) fn is_above(n: u64, number: Option<u64>) -> bool
    ensures { result ≡ is_above n number }
{
    matches!(number, Some(number) if n < number)
}

/// A key's item, from the last entry that set it and the last clear.
pub(crate) fn item_from<'a>(
    base: Option<&'a Item>,
    entries: &'a VecDeque<Entry>,
    floor: u64,
    set: Option<u64>,
    cleared: Option<u64>,
) -> Option<&'a Item>
    requires { IsWithin floor (floor + length entries.now.items) set }
    ensures { option_copied result ≡ item_from (option_copied base.entry) entries.now.items floor set cleared }
{
    match (set, cleared) {
        (None, None) => base,
        (None, Some(_)) => None,
        (Some(set), None) => item_put_at(entries, (set - floor - 1) as usize),
        (Some(set), Some(cleared)) => {
            if set < cleared {
                None
            } else {
                item_put_at(entries, (set - floor - 1) as usize)
            }
        }
    }
}

// The item that the entry at this place puts, or none.
fn item_put_at(entries: &VecDeque<Entry>, i: usize) -> Option<&Item>
    ensures { option_copied result ≡ item_put_at entries.now.items i }
{
    entries.get(i)?.item_put()
}
