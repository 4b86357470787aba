//! Queues that give back what a burst took.
ghost use Rattle.std.specs.Prelude.{◌≡◌};

use std::collections::VecDeque;

/// Gives back the buffer of a queue that is empty, if it has room for more than `kept`. It takes no memory.
pub(crate) fn give_back<T: Drop>(queue: &mut VecDeque<T>, kept: usize)
    ensures { queue.new.items ≡ queue.old.items }
{
    if queue.is_empty() && queue.capacity() > kept {
        let alloc = *queue.allocator();
        *queue = VecDeque::new(alloc);
    }
}
