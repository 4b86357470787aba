//! The place of a server in the chain of those that aren't gone.
ghost use Rattle.std.specs.Prelude.{◌≡◌, ◌<◌};
ghost use Rattle.chain_status.specs.Roles as roles;

use serde::Serialize;

/// The place of a server in the chain, as those that live see it.
#[derive(Clone, Copy, PartialEq, Eq, Serialize)]
#[serde(rename_all = "snake_case")]
pub enum Role {
    /// It is gone.
    Gone,
    /// It is the only one that isn't gone.
    Only,
    /// It is the first one of several.
    Head,
    /// It is neither the first nor the last one.
    Middle,
    /// It is the last one of several.
    Tail,
}

/// The role of a server of a chain of so many, if these are gone: server i is the bit of value 2^i.
pub fn role_of(gone: u16, servers: u8, i: u8) -> Role
    ensures { result ≡ roles.role_of gone servers i }
{
    if is_in(gone, i) {
        return Role::Gone;
    }
    role_between(last_below(gone, i), is_that(last_below(gone, servers), i))
}

// The role of a server that isn't gone: whether another one is before it, and whether it is the last one.
fn role_between(before: Option<u8>, last: bool) -> Role
    ensures { result ≡ roles.role_between before last }
{
    match (before, last) {
        (None, true) => Role::Only,
        (None, false) => Role::Head,
        (Some(_), true) => Role::Tail,
        (Some(_), false) => Role::Middle,
    }
}

/// Whether a set has this server.
pub(crate) fn is_in(set: u16, i: u8) -> bool
    ensures { result ≡ roles.is_in set i }
{
    i < 16 && has(set, i)
}

// Whether a set has this server.
fn has(set: u16, i: u8) -> bool
    requires server { i < 16 }
    ensures { result ≡ roles.has set i }
{
    (set >> i) & 1 == 1
}

/// The last server below n that isn't gone.
#[tactic(auto, using(crate::proofs::Steps::last_step), unfolding(crate::specs::Roles::last_below))]
pub(crate) fn last_below(gone: u16, n: u8) -> Option<u8>
    ensures { result ≡ roles.last_below gone n }
{
    let mut last = None;
    for i in 0..n {
        if !is_in(gone, i) {
            last = Some(i);
        }
    }
    last
}

// Whether there is one, and it is this one.
fn is_that(one: Option<u8>, i: u8) -> bool
    ensures { result ≡ roles.is_that one i }
{
    match one {
        Some(j) => j == i,
        None => false,
    }
}
