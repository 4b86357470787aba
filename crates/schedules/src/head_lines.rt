//! The two lines that open a schedule: how many servers there are, and where the connections are.
ghost use Rattle.std.specs.Prelude.{◌≡◌, IfOk, length, map, nat_le, option_map};
ghost use Rattle.schedules.specs.Splits.{fields_of};
ghost use Rattle.schedules.specs.HeadLines.{servers_line, homes_line, numbers_below};

use crate::numbers::number_in;
use crate::splits::split_once;
use std::alloc::{AllocError, Global};
use world::{MOST_HOMES, MOST_SERVERS};

/// How many servers a `servers` line names, if it is one.
pub fn servers_line(line: &[u8]) -> Option<usize>
    ensures { result ≡ servers_line line.now }
{
    let (word, number) = split_once(b' ', line)?;
    if word != b"servers".as_slice() {
        return None;
    }
    number_in(1, MOST_SERVERS + 1, number)
}

/// The homes that a `homes` line names, if it is one, in a chain of `count` servers.
pub fn homes_line(
    alloc: Global,
    count: usize,
    line: &[u8],
) -> Result<Option<Vec<usize>>, AllocError>
    ensures { IfOk result (λ homes. option_map (λ v. v.items) homes ≡ homes_line count line.now) }
{
    let Some((word, rest)) = split_once(b' ', line) else {
        return Ok(None);
    };
    if word != b"homes".as_slice() || !fits(rest) {
        return Ok(None);
    }
    let fields = fields(alloc, rest)?;
    numbers_below(alloc, count, fields.as_slice())
}

// Whether a text has no more fields than a schedule has homes: one more than it has spaces.
fn fits(text: &[u8]) -> bool
    ensures { result ≡ nat_le (length (fields_of text.now)) 64 }
{
    text.iter().filter(|b| **b == b' ').count() < MOST_HOMES
}

fn fields(alloc: Global, text: &[u8]) -> Result<Vec<&[u8]>, AllocError>
    ensures { IfOk result (λ v. map (λ field. field.now) v.items ≡ fields_of text.now) }
{
    text.split(|b| *b == b' ').collect(alloc)
}

fn numbers_below(
    alloc: Global,
    high: usize,
    fields: &[&[u8]],
) -> Result<Option<Vec<usize>>, AllocError>
    ensures { IfOk result
        (λ numbers. option_map (λ v. v.items) numbers ≡ numbers_below high (map (λ field. field.now) fields.now)) }
{
    let mut numbers = Vec::with_capacity(alloc, fields.len())?;
    for field in fields {
        match number_in(0, high, field) {
            Some(number) => numbers.push(number)?,
            None => return Ok(None),
        }
    }
    Ok(Some(numbers))
}
