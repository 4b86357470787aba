//! The links from a server to the others.
ghost use Rattle.std.specs.Prelude.{◌≡◌, ◌≢◌, ◌⊎◌, ◌≤◌, ◌<◌, ◌++◌, ◌∷◌, [], nat_lt, ℕ, OnOk, OnErr, IfErr};
ghost use Rattle.node.specs.declared.messages.Output.TheVariants.{To};
ghost use Rattle.node.specs.Lawful.{IsFit};
ghost use Rattle.faces.specs.Outputs.{PutsOut};
ghost use Rattle.rail.specs.declared.faults.RailFault.TheVariants.{Memory, LinkDown};

use crate::RailFault;
use faces::Published;
use node::Peer;

/// Where a worker puts its messages. What was put, how often each link failed, and what each link carried contracts
/// alone see.
pub trait Links {
    ghost use Rattle.rail.specs.Links.{LinksState};

    // What a link carries: bytes, or inbox messages.
    ghost Carried: { Type 0 };

    // What was put, how often each link failed, and what each link carried.
    ghost state: { Self → LinksState Self.Carried };

    /// Whether the link to a server has failed.
    fn failed(&self, to: u8) -> bool
        ensures { result ≡ nat_lt 0 ((state self.now).failures to) };

    /// Puts a message, after the input that made it was published. It may wait. Refused if memory is out, or because
    /// the link fails, which then has failed from now on. Nothing is put on a link that has failed.
    fn put(&mut self, published: &Published, to: u8, peer: Peer) -> Result<(), RailFault>
        // The step of the last input that was published put it out.
        requires published { PutsOut published.now (To to peer) }
        // It may be sent, and handed in where it goes.
        requires fit { IsFit (To to peer) }
        requires up { (state self.old).failures to ≡ 0 }
        ensures ok { OnOk result ((state self.new).list ≡ (state self.old).list ++ (to, peer) ∷ []) }
        ensures err { OnErr result ((state self.new).list ≡ (state self.old).list) }
        // The link to this server carries the message, and no other carries anything more.
        ensures carried { OnOk result
            ((state self.new).carried to ≡ (state self.old).carried to ++ (state self.old).spelled peer) }
        // A link that carries a part of it has failed.
        ensures unput { OnErr result
            ((0 < (state self.new).failures to) ⊎ ((state self.new).carried to ≡ (state self.old).carried to)) }
        ensures elsewhere { (j : ℕ) → j ≢ to → (state self.new).carried j ≡ (state self.old).carried j }
        ensures spelled { (state self.new).spelled ≡ (state self.old).spelled }
        ensures failures { (j : ℕ) → (state self.old).failures j ≤ (state self.new).failures j }
        ensures fault { IfErr result
            (λ f. (f ≡ Memory) ⊎ ((f ≡ LinkDown) × (0 < (state self.new).failures to))) };
}
