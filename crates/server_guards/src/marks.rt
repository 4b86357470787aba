//! Marks, which one thread sets and others see.

use std::alloc::{AllocError, Global};
use std::sync::Arc;
use std::sync::atomic::{AtomicBool, Ordering};

/// A flag that threads share. Once it is set it stays so.
#[derive(Drop)]
pub struct Mark {
    flag: Arc<AtomicBool, Global>,
}

impl Mark {
    /// A mark that isn't set.
    pub fn new(alloc: Global) -> Result<Mark, AllocError> {
        let flag = Arc::new(alloc, AtomicBool::new(false))?;
        Ok(Mark { flag })
    }

    /// The same mark, for another thread. Refused only when out of memory.
    pub fn share(&self) -> Result<Mark, AllocError> {
        let flag = Arc::try_clone(&self.flag)?;
        Ok(Mark { flag })
    }

    /// Sets it.
    pub fn set(&self) {
        self.flag.store(true, Ordering::SeqCst);
    }

    /// Whether it is set.
    pub fn is_set(&self) -> bool {
        self.flag.load(Ordering::SeqCst)
    }
}
