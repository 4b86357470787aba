//! Gauges, which tell whether a server's items may take more memory.
ghost use Rattle.std.specs.Prelude.{◌≡◌, ◌↔◌, ◌<◌, ◌+◌, ◌*◌, IfOk, IfSome, None, true, option_map};

use rail::Weight;
use std::alloc::{AllocError, Global};
use std::sync::Arc;
use std::sync::atomic::{AtomicBool, Ordering};

/// How much memory the items of a server may take, and what each of them is taken for.
#[derive(Clone, Copy, Debug, PartialEq, Eq)]
pub struct Allowance {
    /// How many bytes they may take by the estimate; None: there is no limit.
    pub limit: Option<u64>,
    /// How many bytes an item takes beside its key and its data.
    pub item: u64,
}

/// Whether a server's items may take more memory. Threads share it: whoever has taken turns of the worker notes what
/// the server holds then.
#[derive(Drop)]
pub struct Gauge {
    allowance: Allowance,
    is_full: Arc<AtomicBool, Global>,
}

impl Allowance {
    /// This many MiB, or no limit, for each of `servers` servers of one process. An item takes 64 bytes once, and 512
    /// at each of them; its key and its data are shared.
    pub fn new(memory: Option<u32>, servers: u8) -> Allowance
        ensures limit { result.limit ≡ option_map (λ mebibytes. mebibytes * 1048576) memory }
        ensures item { result.item ≡ 64 + 512 * servers }
    {
        let limit = match memory {
            Some(mebibytes) => Some(u64::from(mebibytes) * 1_048_576),
            None => None,
        };
        Allowance {
            limit,
            item: 64 + 512 * u64::from(servers),
        }
    }

    /// Whether what a server holds takes less than the limit by the estimate: the bytes of keys and data, and what is
    /// added for each item.
    pub fn has_room(&self, weight: Weight) -> bool
        ensures { (result ≡ true) ↔
            IfSome self.now.limit (λ limit. weight.bytes + weight.items * self.now.item < limit) }
    {
        match self.limit {
            Some(limit) => is_below(weight, self.item, limit),
            None => true,
        }
    }
}

// Whether the estimate is below the limit, if each item takes this much beside its key and its data.
fn is_below(weight: Weight, item: u64, limit: u64) -> bool
    ensures { (result ≡ true) ↔ (weight.bytes + weight.items * item < limit) }
{
    let Some(added) = weight.items.checked_mul(item) else {
        return false;
    };
    match weight.bytes.checked_add(added) {
        Some(estimate) => estimate < limit,
        None => false,
    }
}

impl Gauge {
    /// A gauge of a server without items.
    pub fn new(alloc: Global, allowance: Allowance) -> Result<Gauge, AllocError>
        ensures { IfOk result (λ gauge. gauge.allowance ≡ allowance) }
    {
        let is_full = Arc::new(alloc, AtomicBool::new(false))?;
        Ok(Gauge { allowance, is_full })
    }

    /// The same gauge, for another thread. Refused only when out of memory.
    pub fn share(&self) -> Result<Gauge, AllocError>
        ensures { IfOk result (λ gauge. gauge.allowance ≡ self.now.allowance) }
    {
        let is_full = Arc::try_clone(&self.is_full)?;
        Ok(Gauge {
            allowance: self.allowance,
            is_full,
        })
    }

    /// Notes what the server holds. It writes only what has changed, so that those who look seldom wait for it.
    pub fn note(&self, weight: Weight) {
        let is_full = !self.allowance.has_room(weight);
        if self.is_full.load(Ordering::SeqCst) != is_full {
            self.is_full.store(is_full, Ordering::SeqCst);
        }
    }

    /// Whether the server's items took less than they may when this was noted last. Without a limit there always is.
    pub fn has_room(&self) -> bool
        ensures { self.now.allowance.limit ≡ None → result ≡ true }
    {
        self.allowance.limit.is_none() || !self.is_full.load(Ordering::SeqCst)
    }
}
