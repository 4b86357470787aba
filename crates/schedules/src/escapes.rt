//! Escapes: any bytes as printable text, and back.
ghost use Rattle.std.specs.Prelude.{◌≡◌, ◌++◌, ◌<◌, IfOk, IfSome, OnOk, length, option_map};
ghost use Rattle.std.specs.Char.{digit_char};
ghost use Rattle.schedules.specs.Escapes.{escape, front_byte, escaped_byte, hex_byte, hex_digit, one_byte, unescape};

use std::alloc::{AllocError, Global};

/// The bytes that a text spells, if it is one, in one block. It looks at each byte of the text once.
pub fn unescape(alloc: Global, text: &[u8]) -> Result<Option<Vec<u8>>, AllocError>
    ensures { IfOk result (λ bytes. option_map (λ v. v.items) bytes ≡ unescape text.now) }
{
    let mut bytes = Vec::with_capacity(alloc, text.len())?;
    let mut rest = text;
    while !rest.is_empty() {
        let Some((b, later)) = front_byte(rest) else {
            return Ok(None);
        };
        bytes.push(b)?;
        rest = later;
    }
    Ok(Some(bytes))
}

/// The byte that a text spells, if it spells exactly one.
pub fn one_byte(text: &[u8]) -> Option<u8>
    ensures { result ≡ one_byte text.now }
{
    let (b, later) = front_byte(text)?;
    if later.is_empty() { Some(b) } else { None }
}

fn front_byte(text: &[u8]) -> Option<(u8, &[u8])>
    ensures front { option_map (λ f. (f.0, f.1.now)) result ≡ front_byte text.now }
    ensures shorter { IfSome result (λ f. length f.1.now < length text.now) }
{
    let (first, later) = text.split_first()?;
    match *first {
        b'\\' => escaped_byte(later),
        b' '..=b'~' => Some((*first, later)),
        _ => None,
    }
}

fn escaped_byte(text: &[u8]) -> Option<(u8, &[u8])>
    ensures front { option_map (λ f. (f.0, f.1.now)) result ≡ escaped_byte text.now }
    ensures shorter { IfSome result (λ f. length f.1.now < length text.now) }
{
    let (letter, later) = text.split_first()?;
    match *letter {
        b'\\' => Some((b'\\', later)),
        b'r' => Some((b'\r', later)),
        b'n' => Some((b'\n', later)),
        b'x' => hex_byte(later),
        _ => None,
    }
}

fn hex_byte(text: &[u8]) -> Option<(u8, &[u8])>
    ensures front { option_map (λ f. (f.0, f.1.now)) result ≡ hex_byte text.now }
    ensures shorter { IfSome result (λ f. length f.1.now < length text.now) }
{
    let (high, later) = text.split_first()?;
    let (low, later) = later.split_first()?;
    Some((hex_digit(*high)? * 16 + hex_digit(*low)?, later))
}

fn hex_digit(b: u8) -> Option<u8>
    ensures { result ≡ hex_digit b }
{
    match b {
        b'0'..=b'9' => Some(b - b'0'),
        b'a'..=b'f' => Some(b - b'a' + 10),
        _ => None,
    }
}

/// Adds the text that spells one byte.
pub fn push_escaped(out: &mut Vec<u8>, b: u8) -> Result<(), AllocError>
    ensures { OnOk result (out.new.items ≡ out.old.items ++ escape b) }
{
    match b {
        b'\\' => out.extend_from_slice(b"\\\\"),
        b'\r' => out.extend_from_slice(b"\\r"),
        b'\n' => out.extend_from_slice(b"\\n"),
        b' '..=b'~' => Ok(out.push(b)?),
        _ => out.extend_from_slice(&[b'\\', b'x', digit_char(b / 16), digit_char(b % 16)]),
    }
}

fn digit_char(digit: u8) -> u8
    requires { digit < 16 }
    ensures { result ≡ digit_char digit }
{
    if digit < 10 {
        b'0' + digit
    } else {
        b'a' - 10 + digit
    }
}
