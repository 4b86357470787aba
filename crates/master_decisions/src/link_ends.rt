//! Which end of a link that stands still is to be called gone: rules that read no clock and send nothing.
ghost use Rattle.std.specs.Prelude.{◌≡◌, ◌≤◌, ◌<◌, ◌⊎◌, ℕ, IfNone, IfSome};
ghost use Rattle.master_decisions.specs.LinkEnds.{apart_below, is_apart, weight};

use crate::server_sets::is_among;
use crate::stalled_links::StalledLinks;
use node::{SERVERS, View};

/// What counts more against a server than all of its links: that it doesn't answer the master.
const SILENCE: u8 = 16;

// Whether a link between these two, which live, stands still by the word of one of them.
fn is_apart(links: &StalledLinks, living: View, i: u8, j: u8) -> bool
    ensures { result ≡ is_apart links.now.said living i j }
{
    i != j && (is_among(living, i) && is_among(living, j)) && (links.says(i, j) || links.says(j, i))
}

// With how many of these a link of server j stands still: all the others of them reach it.
fn apart_from(links: &StalledLinks, living: View, j: u8) -> u8
    ensures count { result ≡ apart_below 16 links.now.said living j }
    ensures most { result ≤ 16 }
{
    let mut count = 0u8;
    for i in 0..SERVERS {
        if is_apart(links, living, i, j) {
            count += 1;
        }
    }
    count
}

// How much speaks for calling server j gone, if it is one of these, which live, and of those, which answer the master.
fn weight(links: &StalledLinks, living: View, heard: View, j: u8) -> u8
    ensures { result ≡ weight links.now.said living heard j }
{
    let count = apart_from(links, living, j);
    if count == 0 {
        0
    } else if is_among(heard, j) {
        count
    } else {
        count + SILENCE
    }
}

/// The end of a link between two servers that live which is to be called gone, if one of them is: that which doesn't
/// answer the master, and if both do, or none, that which fewer other ones reach; if equally many do, that with the
/// higher id.
pub fn end_to_go(links: &StalledLinks, living: View, heard: View, i: u8, j: u8) -> u8
    ensures one { (result ≡ i) ⊎ (result ≡ j) }
    ensures first { weight links.now.said living heard i ≤ weight links.now.said living heard result }
    ensures second { weight links.now.said living heard j ≤ weight links.now.said living heard result }
    ensures equal { weight links.now.said living heard i ≡ weight links.now.said living heard j
        → (i ≤ result) × (j ≤ result) }
{
    let first = weight(links, living, heard, i);
    let second = weight(links, living, heard, j);
    heavier(i, first, j, second)
}

// The one of the two that has the greater weight; of equal ones that with the higher id.
fn heavier(i: u8, first: u8, j: u8, second: u8) -> u8
    ensures one { ((result ≡ i) × (second ≤ first)) ⊎ ((result ≡ j) × (first ≤ second)) }
    ensures equal { first ≡ second → (i ≤ result) × (j ≤ result) }
{
    if first > second || (first == second && i > j) {
        i
    } else {
        j
    }
}

/// The one server that is to be called gone first, if a link between two that live stands still: by the same rule, of
/// all ends of such links.
pub fn first_to_go(links: &StalledLinks, living: View, heard: View) -> Option<u8>
    ensures some { IfSome result (λ j. 0 < weight links.now.said living heard j) }
    ensures most { IfSome result (λ j. (k : ℕ) → k < 16
        → weight links.now.said living heard k ≤ weight links.now.said living heard j) }
    ensures equal { IfSome result (λ j. (k : ℕ) → k < 16
        → weight links.now.said living heard k ≡ weight links.now.said living heard j → k ≤ j) }
    ensures none { IfNone result ((k : ℕ) → k < 16 → weight links.now.said living heard k ≡ 0) }
{
    let mut heaviest = 0u8;
    let mut most = 0u8;
    for j in 0..SERVERS {
        let weight = weight(links, living, heard, j);
        if weight >= most {
            heaviest = j;
            most = weight;
        }
    }
    if most > 0 { Some(heaviest) } else { None }
}
