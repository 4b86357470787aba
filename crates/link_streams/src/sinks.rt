//! Where the bytes of a stream go while a connection stands.
ghost use Rattle.std.specs.Prelude.{◌≡◌, ◌≤◌, ◌++◌, ℕ, List, IfSome, length};
ghost use Rattle.link_streams.specs.Sinks.{taken_of};

/// The sending half of one connection, which never waits. Contracts see the bytes that it took.
pub trait LinkSink {
    /// The bytes that it took, in order.
    ghost taken: { Self → List ℕ };

    /// Takes a beginning of these bytes, as many as it can without waiting, and answers how many: 0 if it takes none
    /// now. None if it has failed, and then it has taken none.
    fn take_some(&mut self, bytes: &[u8]) -> Option<usize>
        ensures bound { IfSome result (λ n. n ≤ length bytes.now) }
        ensures taken { taken self.new ≡ taken self.old ++ taken_of result bytes.now };
}
