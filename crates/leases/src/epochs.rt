//! Numbers of epochs.
ghost use Rattle.std.specs.Prelude.{◌≡◌, ◌+◌, ◌≤◌, ◌<◌, ◌%◌, ◌^◌, IfSome, IfNone};

/// How many masters have names of their own: 2^32.
const NAMES: u64 = 0x1_0000_0000;

/// The number of an epoch for the master of this name: the least one above `highest`, which is the highest that the
/// servers are in, that ends in the name. So two masters of different names never have the same. None if there is no
/// such number below 2^64.
pub fn next_epoch(highest: u64, name: u32) -> Option<u64>
    ensures above { IfSome result (λ epoch. highest < epoch) }
    ensures least { IfSome result (λ epoch. epoch ≤ highest + 2 ^ 32) }
    ensures own { IfSome result (λ epoch. epoch % 2 ^ 32 ≡ name) }
    ensures none { IfNone result (2 ^ 64 ≤ highest + 2 ^ 32) }
{
    let epoch = highest - highest % NAMES + u64::from(name);
    if epoch > highest {
        return Some(epoch);
    }
    epoch.checked_add(NAMES)
}
