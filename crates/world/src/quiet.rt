//! Quiet: whether nothing waits in a world.
ghost use Rattle.std.specs.Prelude.{◌≡◌, ◌<◌, not, ◌&&◌, ◌||◌, length};
ghost use Rattle.std.specs.List.{list_all};
ghost use Rattle.world.specs.Links.{is_empty};
ghost use Rattle.world.specs.Worlds.{lives, link};
ghost use Rattle.world.specs.Quiet.{all_below, is_server_quiet, waits};
ghost use Rattle.world.specs.Quiet as quiet;

use crate::worlds::World;

impl World {
    /// Whether nothing waits at living servers.
    pub fn is_quiet(&self) -> bool
        ensures { result ≡ quiet.is_quiet self.now }
    {
        self.are_servers_quiet() && self.are_connections_quiet()
    }

    // Whether no message waits for a living server, and no failure that it doesn't know.
    #[tactic(auto, using(crate::proofs::bodies::AllBelow::all_more, crate::proofs::bodies::AllBelow::all_broken))]
    fn are_servers_quiet(&self) -> bool
        ensures { result ≡ all_below (length self.now.servers)
            (λ j. not (lives self.now j) || is_server_quiet self.now j) }
    {
        for j in 0..self.servers.len() {
            if self.lives(j) && !self.is_server_quiet(j) {
                return false;
            }
        }
        true
    }

    #[tactic(auto, unfolding(crate::specs::Worlds::server))]
    fn is_server_quiet(&self, j: usize) -> bool
        requires server { j < length self.now.servers }
        ensures { result ≡ is_server_quiet self.now j }
    {
        self.is_unreached(j) && self.servers.view(j) == self.failed
    }

    // Whether no link to server j holds a message.
    #[tactic(auto, using(crate::proofs::bodies::AllBelow::all_more, crate::proofs::bodies::AllBelow::all_broken), unfolding(crate::specs::Worlds::link))]
    fn is_unreached(&self, j: usize) -> bool
        ensures { result ≡ all_below (length self.now.servers) (λ i. is_empty (link self.now i j)) }
    {
        for i in 0..self.servers.len() {
            if !self.links.is_empty(i, j) {
                return false;
            }
        }
        true
    }

    // Whether no call or reply waits at a connection of a living server.
    fn are_connections_quiet(&self) -> bool
        ensures { result ≡ list_all (λ k. not (lives self.now k.home && waits k.stage)) self.now.connections }
    {
        self.connections
            .iter()
            .all(|k| !(self.lives(k.home()) && k.waits()))
    }
}
