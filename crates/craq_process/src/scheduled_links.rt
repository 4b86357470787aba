//! The links of a server whose turns a scheduler has taken.
ghost use Rattle.std.specs.Prelude.{◌≡◌, ◌≤◌, ◌==◌, ℕ, Bool, List, [], true, false};
ghost use Rattle.in_process_links.specs.Reached.{id_of, reached_of};
ghost use Rattle.in_process_links.specs.ServerSets.{has_server};
ghost use Rattle.craq_process.specs.Senders.{stays_own};

use in_process_links::{InProcessLinks, ServerSet};
use rail::Links;
use std::sync::Wait;

/// Links that tell to which servers of this process they brought something, and that may keep what was put until it is
/// written.
pub trait ScheduledLinks: Links {
    ghost use Rattle.in_process_links.specs.declared.server_sets.ServerSet.{ServerSet};

    // Whether they may be the links of this server: not if what they carry says that it comes from another one.
    ghost may_be_of: { Self → ℕ → Bool };

    // The servers of this process that were sent something since this was last asked.
    ghost reached: { Self → ServerSet };

    // The bytes that wait to be written to each server.
    ghost waiting: { Self → ℕ → List ℕ };

    /// The servers of this process that were sent something since this was last asked.
    fn take_reached(&mut self) -> ServerSet
        ensures reached { result ≡ reached self.old }
        ensures none { (j : ℕ) → has_server (reached self.new) j ≡ false }
        // Nothing else has changed.
        ensures state { Self.state self.new ≡ Self.state self.old }
        ensures waiting { (j : ℕ) → waiting self.new j ≡ waiting self.old j };

    /// Writes what was put and isn't written yet, as far as that can be done without waiting. A link fails if it can't
    /// be done at all. Whether something is left, so that this has to be tried again.
    fn write_out(&mut self) -> bool
        // If not, nothing waits for any server.
        ensures written { result ≡ false → (j : ℕ) → waiting self.new j ≡ [] }
        // Nothing is put meanwhile.
        ensures list { (Self.state self.new).list ≡ (Self.state self.old).list }
        // A link that hasn't failed carries what it carried.
        ensures carried { (j : ℕ) → (Self.state self.new).failures j ≡ 0 →
            (Self.state self.new).carried j ≡ (Self.state self.old).carried j }
        ensures spelled { (Self.state self.new).spelled ≡ (Self.state self.old).spelled }
        ensures failures { (j : ℕ) → (Self.state self.old).failures j ≤ (Self.state self.new).failures j };

    // Links that carry messages as before are those of the same server.
    ghost stays_own: { (before after : Self) (id : ℕ) → (Self.state after).spelled ≡ (Self.state before).spelled
        → may_be_of before id ≡ true → may_be_of after id ≡ true };
}

impl<R: Wait + Drop> ScheduledLinks for InProcessLinks<R> {
    // What they carry is an input from the server whose they are.
    ghost may_be_of = { λ links id. id_of links == id };

    ghost reached = { λ links. reached_of links };

    // What was put is with its receiver.
    ghost waiting = { λ links server. [] };

    ghost stays_own = { λ before after id same own. stays_own (id_of before) (id_of after) id same own };

    fn take_reached(&mut self) -> ServerSet {
        self.take_reached()
    }

    fn write_out(&mut self) -> bool {
        false
    }
}
