//! Whom a master tells that a server has failed, and what came of it.
ghost use Rattle.std.specs.Prelude.{◌≡◌, ◌<◌, ◌≤◌, ℕ, IfNone, IfOk, IfSome, None, Some};
ghost use Rattle.node.specs.Masters.{notices_from};
ghost use Rattle.node.specs.Views.{single, union};
ghost use Rattle.master_decisions.specs.Notices.{answer_at, done_in, is_silent, is_silent_at, refusal_at, refusal_of};
ghost use Rattle.master_decisions.specs.ServerSets.{is_among};

use crate::server_sets::{and_one, is_among};
use node::{SERVERS, View};
use std::alloc::{AllocError, Global};
use wire::Reason;

/// What came of asking a server.
#[derive(Clone, Copy, PartialEq, Eq)]
pub enum Answer {
    /// Nothing was asked that counts.
    Unasked,
    /// It has done what it was asked.
    Done,
    /// It didn't answer.
    Silent,
    /// Its host has no address.
    NoHost,
    /// It refuses the master.
    Refused(Reason),
    /// It is another start of the server than the master knew, and wasn't asked.
    Anew,
    /// It doesn't take the notice, since it is in another epoch.
    Untaken,
}

/// The notices (i, j) that server `j` has failed, if the servers of `known` are known to have failed: one for each
/// other server i of the chain that isn't, in the order of their ids. They are those that `node::Master` gives when it
/// first hears of `j`, and here are given each time. Fails only if memory runs out.
pub(crate) fn notices(
    alloc: Global,
    known: View,
    j: u8,
    count: u8,
) -> Result<Vec<(u8, u8)>, AllocError>
    requires chain { count ≤ 16 }
    requires server { j < 16 }
    ensures { IfOk result (λ given. given.items ≡ notices_from (union known (single j)) j 0 count) }
{
    notices_beside(alloc, known.union(View::single(j)), j, count)
}

// A notice (i, j) for each of n servers that isn't among these.
fn notices_beside(alloc: Global, gone: View, j: u8, count: u8) -> Result<Vec<(u8, u8)>, AllocError>
    requires chain { count ≤ 16 }
    ensures { IfOk result (λ given. given.items ≡ notices_from gone j 0 count) }
{
    let mut given = Vec::new(alloc);
    for i in 0..count {
        if !gone.has(i) {
            given.push((i, j))?;
        }
    }
    Ok(given)
}

/// How many servers have done what they were asked.
pub fn done_in(answers: &[Answer]) -> usize
    ensures { result ≡ done_in answers.now }
{
    answers
        .iter()
        .filter(|answer| matches!(**answer, Answer::Done))
        .count()
}

/// The servers that were asked and gave no answer, but those that are gone. The answers are in the order of the
/// servers' ids.
pub fn silent_in(answers: &[Answer], gone: View) -> View
    ensures { (i : ℕ) → i < 16 → is_among result i ≡ is_silent_at answers.now gone i }
{
    let mut silent = View::empty();
    for i in 0..SERVERS {
        if is_silent_at(answers, gone, i) {
            silent = and_one(silent, i);
        }
    }
    silent
}

// Whether server i was asked and gave no answer, and isn't gone.
fn is_silent_at(answers: &[Answer], gone: View, i: u8) -> bool
    ensures { result ≡ is_silent_at answers.now gone i }
{
    is_silent(answer_at(answers, i)) && !is_among(gone, i)
}

// Whether this is no answer.
fn is_silent(answer: Answer) -> bool
    ensures { result ≡ is_silent answer }
{
    match answer {
        Answer::Silent | Answer::NoHost => true,
        Answer::Unasked | Answer::Done | Answer::Refused(_) | Answer::Anew | Answer::Untaken =>
            false,
    }
}

/// What came of asking server `i`. The answers are in the order of the servers' ids.
pub fn answer_at(answers: &[Answer], i: u8) -> Answer
    ensures { result ≡ answer_at answers.now i }
{
    let i = usize::from(i);
    if i < answers.len() {
        answers[i]
    } else {
        Answer::Unasked
    }
}

/// The first server that refuses the master, and why.
pub fn refusal_in(answers: &[Answer]) -> Option<(u8, Reason)>
    ensures refusal { IfSome result (λ given. refusal_at answers.now given.0 ≡ Some given.1) }
    ensures first { IfSome result (λ given. (i : ℕ) → i < given.0 → refusal_at answers.now i ≡ None) }
    ensures none { IfNone result ((i : ℕ) → i < 16 → refusal_at answers.now i ≡ None) }
{
    for i in 0..SERVERS {
        if let Some(reason) = refusal_of(answer_at(answers, i)) {
            return Some((i, reason));
        }
    }
    None
}

// Why a server refuses the master, if that came of asking it.
fn refusal_of(answer: Answer) -> Option<Reason>
    ensures { result ≡ refusal_of answer }
{
    match answer {
        Answer::Refused(reason) => Some(reason),
        Answer::Unasked
        | Answer::Done
        | Answer::Silent
        | Answer::NoHost
        | Answer::Anew
        | Answer::Untaken => None,
    }
}
