//! Texts: what is written for faults and replies.
ghost use Rattle.std.specs.Prelude.{◌≡◌, ◌+◌, ◌≤◌, ◌++◌, false, decimal, length, OnOk, OnErr};
ghost use Rattle.proto.specs.Words.{crlf};
ghost use Rattle.proto.specs.Turns.{fault_text, is_number, status_text, text, end_text, value_text, value_line};
ghost use Rattle.proto.specs.Turns.{unique_text, number_text, refusal_text};

use crate::Fault;
use bytes::BytesMut;
use itoa::Buffer;
use std::alloc::AllocError;
use table::{Item, Key, Reply};

// 2^64 - 1 has 20 digits.
const DIGITS: usize = 20;

// A space and a number.
const NUMBER: usize = 1 + DIGITS;

// `VALUE `, three numbers, CR LF.
const VALUE_LINE: usize = 6 + 3 * NUMBER + 2;

// CR LF after the data, and `END` CR LF.
const VALUE_END: usize = 2 + 5;

/// How a read of one key is shown (protocol.txt, "Retrieval command").
#[derive(Drop)]
pub struct Look {
    /// The key that is shown.
    pub key: Key,
    /// Whether the item's unique is shown, as for `gets`.
    pub unique: bool,
    /// Whether it is the last key of its get, so that `END` follows.
    pub last: bool,
}

/// The form in which a call is answered.
#[derive(Drop)]
pub enum Form {
    /// One line that says how an update went.
    Status,
    /// Nothing is written.
    Silent,
    /// The block of a key's item, if it has one (protocol.txt, "Retrieval command").
    Show(Look),
}

/// Writes a fault's line.
pub fn write_fault(out: &mut BytesMut, fault: Fault) -> Result<(), AllocError>
    ensures ok { OnOk result (out.new.items ≡ out.old.items ++ fault_text fault) }
    ensures err { OnErr result (out.new.items ≡ out.old.items) }
{
    out.extend_from_slice(fault_line(fault))
}

fn fault_line(fault: Fault) -> &'static [u8]
    ensures { result.now ≡ fault_text fault }
{
    match fault {
        Fault::Command => b"ERROR\r\n",
        Fault::Format => b"CLIENT_ERROR bad command line format\r\n",
        Fault::DataChunk => b"CLIENT_ERROR bad data chunk\r\n",
        Fault::TooLarge => b"SERVER_ERROR object too large for cache\r\n",
        Fault::LineTooLong => b"CLIENT_ERROR line too long\r\n",
        Fault::Expiry => b"CLIENT_ERROR expiry is not supported\r\n",
    }
}

/// Writes what an answered call shows, straight to the output.
pub fn write_reply(out: &mut BytesMut, form: &Form, reply: &Reply) -> Result<(), AllocError>
    ensures ok { OnOk result (out.new.items ≡ out.old.items ++ text form.now reply.now) }
    ensures err { OnErr result (out.new.items ≡ out.old.items) }
{
    match (form, reply) {
        (Form::Silent, _) => Ok(()),
        (Form::Status, Reply::Number(n)) => write_number(out, *n),
        (Form::Status, reply) => out.extend_from_slice(status_line(reply)),
        (Form::Show(look), Reply::Value(Some(item))) => write_value(out, look, item),
        (Form::Show(look), Reply::Value(None)) => out.extend_from_slice(end_line(look.last)),
        (Form::Show(_), _) => Ok(()),
    }
}

/// Writes that a call was refused, since the server's memory is used up: a line, in memcached's words, for an update
/// that isn't silent.
pub fn write_refusal(out: &mut BytesMut, form: &Form) -> Result<(), AllocError>
    ensures ok { OnOk result (out.new.items ≡ out.old.items ++ refusal_text form.now) }
    ensures err { OnErr result (out.new.items ≡ out.old.items) }
{
    match form {
        Form::Status => out.extend_from_slice(b"SERVER_ERROR out of memory storing object\r\n"),
        Form::Silent | Form::Show(_) => Ok(()),
    }
}

// The line of a reply without a value.
fn status_line(reply: &Reply) -> &'static [u8]
    requires { is_number reply.now ≡ false }
    ensures { result.now ≡ status_text reply.now }
{
    match reply {
        Reply::Stored => b"STORED\r\n",
        Reply::NotStored => b"NOT_STORED\r\n",
        Reply::Exists => b"EXISTS\r\n",
        Reply::NotFound => b"NOT_FOUND\r\n",
        Reply::Deleted => b"DELETED\r\n",
        Reply::TooLarge => b"SERVER_ERROR object too large for cache\r\n",
        Reply::NotNumber => b"CLIENT_ERROR cannot increment or decrement non-numeric value\r\n",
        Reply::Flushed => b"OK\r\n",
        Reply::Number(_) | Reply::Value(_) => b"",
    }
}

fn write_number(out: &mut BytesMut, n: u64) -> Result<(), AllocError>
    ensures ok { OnOk result (out.new.items ≡ out.old.items ++ (decimal n ++ crlf)) }
    ensures err { OnErr result (out.new.items ≡ out.old.items) }
{
    out.reserve(DIGITS + 2)?;
    out.extend_reserved(Buffer::new().format(n).as_bytes());
    out.extend_reserved(b"\r\n");
    Ok(())
}

fn write_value(out: &mut BytesMut, look: &Look, item: &Item) -> Result<(), AllocError>
    ensures ok { OnOk result
        (out.new.items ≡ out.old.items
        ++ (value_text look.now.key look.now.unique item.now ++ end_text look.now.last)) }
    ensures err { OnErr result (out.new.items ≡ out.old.items) }
{
    let key = look.key.bytes();
    let data = item.bytes().as_slice();
    out.reserve(VALUE_LINE + key.len() + data.len() + VALUE_END)?;
    put_value_line(out, key, look.unique, item);
    out.extend_reserved(data);
    out.extend_reserved(b"\r\n");
    out.extend_reserved(end_line(look.last));
    Ok(())
}

// The line before an item's data. There is room for it, so that nothing can be refused halfway.
fn put_value_line(out: &mut BytesMut, key: &[u8], unique: bool, item: &Item)
    requires room { length key.now + 71 ≤ out.old.spare }
    ensures text { out.new.items ≡ out.old.items ++ value_line key.now unique item.now }
    ensures room { out.old.spare ≤ out.new.spare + length key.now + 71 }
{
    out.extend_reserved(b"VALUE ");
    out.extend_reserved(key);
    put_number(out, u64::from(item.flags()));
    put_number(out, item.bytes().len() as u64);
    put_unique(out, unique, item.unique());
    out.extend_reserved(b"\r\n");
}

fn put_unique(out: &mut BytesMut, unique: bool, n: u64)
    requires room { 21 ≤ out.old.spare }
    ensures text { out.new.items ≡ out.old.items ++ unique_text unique n }
    ensures room { out.old.spare ≤ out.new.spare + 21 }
{
    if unique {
        put_number(out, n);
    }
}

// A number after a space.
fn put_number(out: &mut BytesMut, n: u64)
    requires room { 21 ≤ out.old.spare }
    ensures text { out.new.items ≡ out.old.items ++ number_text n }
    ensures room { out.old.spare ≤ out.new.spare + 21 }
{
    out.extend_reserved(b" ");
    out.extend_reserved(Buffer::new().format(n).as_bytes());
}

fn end_line(last: bool) -> &'static [u8]
    ensures { result.now ≡ end_text last }
{
    if last { b"END\r\n" } else { b"" }
}
