//! Lines of the input, each of which names a server.
ghost use Rattle.std.specs.Prelude.{◌≡◌, ◌≢◌, ◌↔◌, ◌<◌, ◌++◌, ◌∷◌, [], ℕ, List, IfOk, MatchOption, decimal, true};

use ends::Source;
use itoa::Buffer;
use std::alloc::{AllocError, Global};

/// The most bytes of a line that are kept: more than any line has that means something.
const KEPT: usize = 16;

/// An empty line, with room for all that is kept of one: `next_line` needs no memory for it.
pub fn empty_line(alloc: Global) -> Result<Vec<u8>, AllocError>
    ensures { IfOk result (λ line. line.items ≡ []) }
{
    Vec::with_capacity(alloc, KEPT)
}

/// Puts the next line without its end there, or a beginning of it if it is long. It tells whether there is one. There
/// is none after the end of input, or after a read that fails.
pub fn next_line<S: Source>(input: &mut S, line: &mut Vec<u8>) -> Result<bool, AllocError> {
    line.clear();
    for _ in 0..u64::MAX {
        let mut byte = [0u8];
        match input.read(byte.as_mut_slice()) {
            Ok(0) => return Ok(!line.is_empty()),
            Ok(_) => {
                if byte[0] == b'\n' {
                    return Ok(true);
                }
                if line.len() < KEPT {
                    line.push(byte[0])?;
                }
            }
            Err(_) => return Ok(!line.is_empty()),
        }
    }
    Ok(false)
}

/// The server that a line names after this word and a space: below `count`, and without leading zeros.
pub fn server_named(line: &[u8], word: &[u8], count: u8) -> Option<u8>
    ensures { MatchOption result ((j : ℕ) → j < count → line.now ≢ word.now ++ 32 ∷ decimal j)
        (λ j. (j < count) × (line.now ≡ word.now ++ 32 ∷ decimal j)) }
{
    let named = rest_after_word(line, word)?;
    for j in 0..count {
        if is_number(named, j) {
            return Some(j);
        }
    }
    None
}

// What follows a word and a space, if they stand at the front.
fn rest_after_word<'a>(line: &'a [u8], word: &[u8]) -> Option<&'a [u8]>
    ensures { MatchOption result ((rest : List ℕ) → line.now ≢ word.now ++ 32 ∷ rest)
        (λ rest. line.now ≡ word.now ++ 32 ∷ rest.now) }
{
    let after = rest_after(line, word)?;
    rest_after(after, b" ")
}

// What follows these bytes, if they stand at the front.
fn rest_after<'a>(bytes: &'a [u8], first: &[u8]) -> Option<&'a [u8]>
    ensures { MatchOption result ((rest : List ℕ) → bytes.now ≢ first.now ++ rest)
        (λ rest. bytes.now ≡ first.now ++ rest.now) }
{
    bytes.strip_prefix(first)
}

// Whether a text is this number.
fn is_number(text: &[u8], number: u8) -> bool
    ensures { (result ≡ true) ↔ (text.now ≡ decimal number) }
{
    let mut digits = Buffer::new();
    text == digits.format(number).as_bytes()
}
