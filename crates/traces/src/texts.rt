//! Texts that grow, in the escapes of transcripts.
ghost use Rattle.std.specs.Prelude.{◌≡◌, ◌++◌, OnOk};
ghost use Rattle.traces.specs.Words.{escaped};

use itoa::Buffer;
use schedules::push_escaped;
use std::alloc::{AllocError, Global};
use std::marker::Model;

/// A text that grows. Contracts see its bytes.
#[derive(Drop)]
pub struct Text {
    bytes: Vec<u8>,
}

impl Model for Text {
    ghost use Rattle.std.specs.Prelude.{List, ℕ};

    ghost Value = { List ℕ };

    ghost view = { λ text. text.bytes.items };
}

impl Text {
    ghost use Rattle.std.specs.Prelude.{◌≡◌, ◌++◌, [], OnOk, decimal};
    ghost use Rattle.traces.specs.Words.{escaped, labelled, spelled};

    /// A text of no byte.
    pub fn new(alloc: Global) -> Text
        ensures { result ≡ [] }
    {
        Text {
            bytes: Vec::new(alloc),
        }
    }

    /// Adds words as they are.
    pub fn put(&mut self, words: &[u8]) -> Result<(), AllocError>
        ensures { OnOk result (self.new ≡ self.old ++ words.now) }
    {
        self.bytes.extend_from_slice(words)
    }

    /// Adds a number in decimal.
    pub fn number(&mut self, number: u64) -> Result<(), AllocError>
        ensures { OnOk result (self.new ≡ self.old ++ decimal number) }
    {
        self.put(Buffer::new().format(number).as_bytes())
    }

    /// Adds words and a number.
    #[tactic(auto, unfolding(crate::specs::Words::labelled))]
    pub fn labelled(&mut self, words: &[u8], number: u64) -> Result<(), AllocError>
        ensures { OnOk result (self.new ≡ self.old ++ labelled words.now number) }
    {
        self.put(words)?;
        self.number(number)
    }

    /// Adds words and a number that is a `usize`: a server's, a connection's or a coordinate.
    #[tactic(auto, unfolding(crate::specs::Words::labelled))]
    pub fn numbered(&mut self, words: &[u8], place: usize) -> Result<(), AllocError>
        ensures { OnOk result (self.new ≡ self.old ++ labelled words.now place) }
    {
        self.put(words)?;
        self.put(Buffer::new().format(place).as_bytes())
    }

    /// Adds words and a server's number.
    #[tactic(auto, unfolding(crate::specs::Words::labelled))]
    pub fn server(&mut self, words: &[u8], server: u8) -> Result<(), AllocError>
        ensures { OnOk result (self.new ≡ self.old ++ labelled words.now server) }
    {
        self.put(words)?;
        self.put(Buffer::new().format(server).as_bytes())
    }

    /// Adds any bytes, escaped as a transcript does.
    pub fn escaped(&mut self, bytes: &[u8]) -> Result<(), AllocError>
        ensures { OnOk result (self.new ≡ self.old ++ escaped bytes.now) }
    {
        push_all_escaped(&mut self.bytes, bytes)
    }

    /// Adds words and any bytes, escaped.
    #[tactic(auto, unfolding(crate::specs::Words::spelled))]
    pub fn spelled(&mut self, words: &[u8], bytes: &[u8]) -> Result<(), AllocError>
        ensures { OnOk result (self.new ≡ self.old ++ spelled words.now bytes.now) }
    {
        self.put(words)?;
        self.escaped(bytes)
    }

    /// Its bytes.
    pub fn as_slice(&self) -> &[u8]
        ensures { result.now ≡ self.now }
    {
        self.bytes.as_slice()
    }

    /// Its bytes, out of it.
    pub fn into_bytes(self) -> Vec<u8>
        ensures { result.items ≡ self }
    {
        self.bytes
    }
}

#[tactic(auto, unfolding(crate::specs::Words::escaped))]
fn push_all_escaped(out: &mut Vec<u8>, bytes: &[u8]) -> Result<(), AllocError>
    ensures { OnOk result (out.new.items ≡ out.old.items ++ escaped bytes.now) }
{
    for b in bytes {
        push_escaped(out, *b)?;
    }
    Ok(())
}
