//! Which values stay in an index, as their owner says.
ghost use Rattle.std.specs.Prelude.{Bool};

/// What `Index::retain` asks of each value. It has no state: what becomes of a value depends on that value alone.
pub trait Retain<V> {
    /// The value before, whether its entry stays, and the value after.
    ghost outcome: { V → Bool → V → Type 0 };

    /// Whether the entry of this value stays. It may change the value.
    fn stays(value: &mut V) -> bool
        ensures { outcome value.old result value.new };
}
