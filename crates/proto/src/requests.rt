//! Requests: what a client may ask for, and the faults that stand in a request's place.
ghost use Rattle.std.specs.Prelude.{◌≡◌, ◌≤◌, ◌↔◌, [], ◌∷◌, IsTrue, IfOk, OnErr, MatchOption, true, drop, length};
ghost use Rattle.std.specs.List.{list_all};
ghost use Rattle.table.specs.Keys.{is_key};
ghost use Rattle.proto.specs.Keys.{keys_of, keys_in};
ghost use Rattle.proto.specs.Words.{fields_of};

use crate::fields::{Fields, first_end};
use bytes::Bytes;
use std::alloc::{AllocError, Global};
use std::marker::Model;
use std::mem;
use table::{Key, Op};

/// What is reported if the bytes spell no request (protocol.txt, "Error strings"). What each consumes and writes:
/// `docs/PROTOCOL.md`, "Faults".
#[derive(Clone, Copy, Debug, PartialEq, Eq)]
pub enum Fault {
    /// An unknown command, or a line feed with no carriage return before it.
    Command,
    /// A known command whose fields do not fit it.
    Format,
    /// A data block that does not end in CR LF where its size says.
    DataChunk,
    /// A data block of more than 1,048,576 bytes.
    TooLarge,
    /// No line feed among the first 2,048 unread bytes. The stream ends here.
    LineTooLong,
    /// An expiry time that is not zero.
    Expiry,
}

/// The keys of one request, in order, as one text with a space between each two. Contracts see a list of keys.
#[derive(Debug, Drop)]
pub struct Keys {
    text: Bytes,
}

impl Model for Keys {
    ghost use Rattle.std.specs.Prelude.{◌≡◌, List, ℕ, true};
    ghost use Rattle.std.specs.List.{list_all};
    ghost use Rattle.table.specs.Keys.{is_key};
    ghost use Rattle.proto.specs.Keys.{keys_in};

    ghost Value = { List (List ℕ) };

    ghost view = { λ k. keys_in k.text };

    ghost invariant = { λ k. list_all is_key (keys_in k.text) ≡ true };
}

impl Keys {
    /// No keys. It allocates nothing.
    pub fn new() -> Keys
        ensures { result ≡ [] }
    {
        Keys { text: Bytes::new() }
    }

    /// The keys that the fields of a text are, or `None` if one of them makes no key. The text is copied once.
    pub fn from_text(alloc: Global, text: &[u8]) -> Result<Option<Keys>, AllocError>
        ensures { IfOk result (λ keys. keys ≡ keys_of (fields_of text.now)) }
    {
        if !are_keys(text) {
            return Ok(None);
        }
        let text = Bytes::copy_from_slice(alloc, text)?;
        Ok(Some(Keys { text }))
    }

    /// Takes the first key off, in time of its length, with a copy that shares its bytes. Its bytes are copied out of
    /// the text. A refusal changes nothing.
    pub fn pop(&mut self, alloc: Global) -> Result<Option<(Key, Key)>, AllocError>
        ensures ok { IfOk result
            (λ o. MatchOption o ((self.old ≡ []) × (self.new ≡ [])) (λ p. (p.0 ≡ p.1) × (self.old ≡ p.0 ∷ self.new))) }
        ensures err { OnErr result (self.new ≡ self.old) }
    {
        if self.is_empty() {
            return Ok(None);
        }
        pop_key(alloc, &mut self.text)
    }

    /// Whether no key is left.
    pub fn is_empty(&self) -> bool
        ensures { IsTrue result ↔ (self.now ≡ []) }
    {
        self.text.is_empty()
    }
}

fn are_keys(text: &[u8]) -> bool
    ensures { result ≡ list_all is_key (fields_of text.now) }
{
    let mut fields = Fields::of(text);
    while let Some(field) = fields.next() {
        if !table::is_key(field) {
            return false;
        }
    }
    true
}

fn pop_key(alloc: Global, text: &mut Bytes) -> Result<Option<(Key, Key)>, AllocError>
    requires keys { list_all is_key (keys_in text.old) ≡ true }
    ensures keys { list_all is_key (keys_in text.new) ≡ true }
    ensures ok { IfOk result
        (λ o. MatchOption o ((keys_in text.old ≡ []) × (keys_in text.new ≡ []))
        (λ p. (p.0 ≡ p.1) × (keys_in text.old ≡ p.0 ∷ keys_in text.new))) }
    ensures err { OnErr result (text.new ≡ text.old) }
{
    let at = first_end(text.as_slice());
    let Some(key) = Key::new(alloc, &text.as_slice()[..at])? else {
        return Ok(None);
    };
    let copy = match key.clone() {
        Ok(copy) => copy,
        Err(fault) => {
            drop(key);
            return Err(fault);
        }
    };
    pass(text, text.len().min(at + 1));
    Ok(Some((key, copy)))
}

// Passes over the first n bytes. A text that has come to its end keeps no block.
fn pass(text: &mut Bytes, n: usize)
    requires { n ≤ length text.old }
    ensures { text.new ≡ drop n text.old }
{
    text.advance(n);
    if text.is_empty() {
        drop(mem::replace(text, Bytes::new()));
    }
}

/// What the bytes at the front of a stream spell.
#[derive(Debug, Drop)]
pub enum Request {
    /// An update of one key with a data block, and whether its reply is silent (protocol.txt, "Storage commands").
    Store(Key, Op, bool),
    /// A read of each of these keys, and whether it shows uniques (protocol.txt, "Retrieval command").
    Get(Keys, bool),
    /// A change of one key's counter, and whether its reply is silent (protocol.txt, "Increment/Decrement").
    Arith(Key, Op, bool),
    /// A deletion of one key, and whether its reply is silent (protocol.txt, "Deletion").
    Delete(Key, bool),
    /// A flush of all keys, and whether its reply is silent (protocol.txt, "flush_all").
    Flush(bool),
    /// The end of the stream (protocol.txt, "quit").
    Quit,
    /// A fault in a request's place.
    Bad(Fault),
}
