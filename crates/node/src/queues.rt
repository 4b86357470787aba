//! Queues: what waits under a number of its own, in the order of the numbers.
ghost use Rattle.std.specs.Prelude.{◌≡◌, ℕ, ◌<◌, ◌==◌, length, map, position, find, remove, Some, IfSome};
ghost use Rattle.std.specs.Option.{option_map};
ghost use Rattle.versions.specs.Numbers.{IsRising};
ghost use Rattle.node.specs.Servers.{without_first};

use std::collections::VecDeque;

/// What waits under a number.
pub(crate) trait Numbered {
    /// The number.
    ghost number_of: { Self → ℕ };

    fn number(&self) -> u64
        ensures { result ≡ number_of self.now };
}

// The place of the one with this number, by a binary search.
fn place_of<T: Numbered>(queue: &VecDeque<T>, number: u64) -> Option<usize>
    requires order { IsRising 0 (map T.number_of queue.now.items) }
    ensures { result ≡ position (λ x. T.number_of x == number) queue.now.items }
{
    queue
        .binary_search_by_key(&number, |waiting| waiting.number())
        .ok()
}

/// The one with this number, if there is one, and its place.
pub(crate) fn look_up<T: Numbered>(queue: &VecDeque<T>, number: u64) -> Option<(usize, &T)>
    requires order { IsRising 0 (map T.number_of queue.now.items) }
    ensures found { option_map (λ f. f.1.now) result ≡ find (λ x. T.number_of x == number) queue.now.items }
    ensures within { IfSome result (λ f. f.0 < length queue.now.items) }
    ensures left { IfSome result
        (λ f. remove queue.now.items f.0 ≡ without_first (λ x. T.number_of x == number) queue.now.items) }
{
    let place = place_of(queue, number)?;
    Some((place, queue.get(place)?))
}

/// Takes out the one with this number, if there is one.
pub(crate) fn take_out<T: Numbered>(queue: &mut VecDeque<T>, number: u64) -> Option<T>
    requires order { IsRising 0 (map T.number_of queue.old.items) }
    ensures found { result ≡ find (λ x. T.number_of x == number) queue.old.items }
    ensures left { queue.new.items ≡ without_first (λ x. T.number_of x == number) queue.old.items }
{
    let place = place_of(queue, number)?;
    queue.remove(place)
}
