//! Fields of a line, and what they spell.
ghost use Rattle.std.specs.Prelude.{◌≡◌, ◌^◌, IfOk, IfSome, ◌∷◌, ◌<◌, length};
ghost use Rattle.std.specs.Char.{is_ascii_digit};
ghost use Rattle.std.specs.List.{list_all};
ghost use Rattle.std.specs.Option.{option_copied};
ghost use Rattle.table.specs.Numbers.{number_of};
ghost use Rattle.proto.specs.Keys.{key_of};
ghost use Rattle.proto.specs.Requests.{silence_of};
ghost use Rattle.proto.specs.Words.{first_lf, first_space, first_end, fields_of, fields_left, is_exptime, is_zero};
ghost use Rattle.proto.specs.Words.{expiry_of};

use memchr::memchr;
use std::alloc::{AllocError, Global};
use std::marker::Model;
use table::{Key, number};

/// The place of the first line feed, by a vector search.
pub fn first_line_end(bytes: &[u8]) -> Option<usize>
    ensures place { result ≡ first_lf bytes.now }
    ensures within { IfSome result (λ i. i < length bytes.now) }
{
    memchr(b'\n', bytes)
}

/// The place of the first carriage return, by a vector search.
pub fn first_return(bytes: &[u8]) -> Option<usize>
    ensures within { IfSome result (λ i. i < length bytes.now) }
{
    memchr(b'\r', bytes)
}

/// The fields of a text that are left, cut at each single space by a vector search. They borrow the text, and nothing
/// is allocated. Contracts see the list of them.
#[derive(Drop)]
pub struct Fields<'a> {
    rest: Option<&'a [u8]>,
}

impl<'a> Model for Fields<'a> {
    ghost use Rattle.std.specs.Prelude.{List, ℕ};
    ghost use Rattle.std.specs.Option.{option_copied};
    ghost use Rattle.proto.specs.Words.{fields_left};

    ghost Value = { List (List ℕ) };

    ghost view = { λ fields. fields_left (option_copied fields.rest) };
}

impl<'a> Fields<'a> {
    ghost use Rattle.std.specs.Prelude.{[], MatchOption};

    /// The fields of a text. There is one at least.
    pub fn of(text: &'a [u8]) -> Fields<'a>
        ensures { result ≡ fields_of text.now }
    {
        Fields { rest: Some(text) }
    }

    /// Takes the first field off.
    pub fn next(&mut self) -> Option<&'a [u8]>
        ensures { MatchOption result ((self.old ≡ []) × (self.new ≡ [])) (λ field. self.old ≡ field.now ∷ self.new) }
    {
        let (field, rest) = first_field(self.rest?);
        self.rest = rest;
        Some(field)
    }

    /// The text of the fields that are left, if there are any.
    pub fn rest(&self) -> Option<&'a [u8]>
        ensures { MatchOption result (self.now ≡ []) (λ text. self.now ≡ fields_of text.now) }
    {
        self.rest
    }
}

/// The end of the first field of a text, by a vector search.
pub fn first_end(text: &[u8]) -> usize
    ensures { result ≡ first_end text.now }
{
    first_space(text).unwrap_or(text.len())
}

/// The place of the first space, by a vector search.
pub fn first_space(text: &[u8]) -> Option<usize>
    ensures place { result ≡ first_space text.now }
    ensures within { IfSome result (λ i. i < length text.now) }
{
    memchr(b' ', text)
}

// The first field of a text, and the text after the space after it.
fn first_field(text: &[u8]) -> (&[u8], Option<&[u8]>)
    ensures { fields_of text.entry.now ≡ result.0.now ∷ fields_left (option_copied result.1) }
{
    match first_space(text) {
        Some(at) => (&text[..at], Some(&text[at + 1..])),
        None => (text, None),
    }
}

/// The number that a field spells, if it is below 2^32.
pub fn number_32(field: &[u8]) -> Option<u32>
    ensures { result ≡ number_of (2 ^ 32) field.now }
{
    u32::try_from(number(field)?).ok()
}

/// Whether a field asks for an expiry time, if it is one: digits, or a minus and digits.
pub fn expiry_of(field: &[u8]) -> Option<bool>
    ensures { result ≡ expiry_of field.now }
{
    if is_exptime(field) {
        Some(!is_zero(field))
    } else {
        None
    }
}

fn is_exptime(field: &[u8]) -> bool
    ensures { result ≡ is_exptime field.now }
{
    match field {
        [] => false,
        [b'-', rest @ ..] => !rest.is_empty() && are_digits(rest),
        _ => are_digits(field),
    }
}

fn are_digits(bytes: &[u8]) -> bool
    ensures { result ≡ list_all is_ascii_digit bytes.now }
{
    bytes.iter().all(|b| b.is_ascii_digit())
}

// Whether an expiry time is made of the digit 0 alone.
fn is_zero(field: &[u8]) -> bool
    ensures { result ≡ is_zero field.now }
{
    field.iter().all(|b| *b == b'0')
}

/// Whether the reply is silent, by the fields at the end of a line.
pub fn silence_of(mut fields: Fields<'_>) -> Option<bool>
    ensures { result ≡ silence_of fields.entry }
{
    match (fields.next(), fields.next()) {
        (None, _) => Some(false),
        (Some(word), None) if word == b"noreply".as_slice() => Some(true),
        _ => None,
    }
}

/// The key that a field is, if it is one.
pub fn key_of(alloc: Global, field: &[u8]) -> Result<Option<Key>, AllocError>
    ensures { IfOk result (λ key. key ≡ key_of field.now) }
{
    Key::new(alloc, field)
}
