//! The fields of the other commands.
ghost use Rattle.std.specs.Prelude.{◌≡◌, IfOk, IfSome, if◌then◌else◌};
ghost use Rattle.std.specs.Option.{option_map};
ghost use Rattle.proto.specs.declared.words.Word.TheVariants.{Incr, Decr};
ghost use Rattle.proto.specs.declared.lines.Asked.TheVariants.{Whole};
ghost use Rattle.proto.specs.Fronts.{IsWhole};
ghost use Rattle.proto.specs.Requests.{get_line, counter_line, delete_line, flush_line, quit_line};
ghost use Rattle.proto.specs.Requests.{asked_of};

use crate::fields::{Fields, key_of, silence_of};
use crate::{Keys, Request};
use std::alloc::{AllocError, Global};
use table::{Key, Op, number};

/// What the fields of an `incr` or a `decr` say.
#[derive(Drop)]
pub struct CounterLine {
    pub key: Key,
    pub amount: u64,
    pub silent: bool,
}

/// What the fields after `get` or `gets` ask for, if they fit.
pub fn get_line(
    alloc: Global,
    unique: bool,
    fields: Fields<'_>,
) -> Result<Option<Request>, AllocError>
    ensures value { IfOk result (λ request. request ≡ get_line unique fields.entry) }
    ensures whole { IfOk result (λ request. IfSome request IsWhole) }
{
    match fields.rest() {
        Some(text) => match Keys::from_text(alloc, text)? {
            Some(keys) => Ok(Some(Request::Get(keys, unique))),
            None => Ok(None),
        },
        None => Ok(None),
    }
}

/// What the fields after `incr` or `decr` ask for, if they fit.
pub fn arith_line(
    alloc: Global,
    rises: bool,
    fields: Fields<'_>,
) -> Result<Option<Request>, AllocError>
    ensures value { IfOk result
        (λ request. option_map Whole request ≡ asked_of (if rises then Incr else Decr) fields.entry) }
    ensures whole { IfOk result (λ request. IfSome request IsWhole) }
{
    let Some(line) = counter_line(alloc, fields)? else {
        return Ok(None);
    };
    let CounterLine {
        key,
        amount,
        silent,
    } = line;
    let op = if rises {
        Op::Incr(amount)
    } else {
        Op::Decr(amount)
    };
    Ok(Some(Request::Arith(key, op, silent)))
}

/// What the fields after `incr` or `decr` say, if they fit.
pub fn counter_line(
    alloc: Global,
    mut fields: Fields<'_>,
) -> Result<Option<CounterLine>, AllocError>
    ensures { IfOk result (λ line. line ≡ counter_line fields.entry) }
{
    let (Some(key), Some(amount)) = (fields.next(), fields.next()) else {
        return Ok(None);
    };
    let (Some(amount), Some(silent)) = (number(amount), silence_of(fields)) else {
        return Ok(None);
    };
    let Some(key) = key_of(alloc, key)? else {
        return Ok(None);
    };
    Ok(Some(CounterLine {
        key,
        amount,
        silent,
    }))
}

/// What the fields after `delete` ask for, if they fit.
pub fn delete_line(alloc: Global, mut fields: Fields<'_>) -> Result<Option<Request>, AllocError>
    ensures value { IfOk result (λ request. request ≡ delete_line fields.entry) }
    ensures whole { IfOk result (λ request. IfSome request IsWhole) }
{
    let Some(key) = fields.next() else {
        return Ok(None);
    };
    let Some(silent) = silence_of(fields) else {
        return Ok(None);
    };
    let Some(key) = key_of(alloc, key)? else {
        return Ok(None);
    };
    Ok(Some(Request::Delete(key, silent)))
}

/// What the fields after `flush_all` ask for, if they fit.
pub fn flush_line(fields: Fields<'_>) -> Option<Request>
    ensures value { result ≡ flush_line fields.entry }
    ensures whole { IfSome result IsWhole }
{
    Some(Request::Flush(silence_of(fields)?))
}

/// What the fields after `quit` ask for, if they fit.
pub fn quit_line(mut fields: Fields<'_>) -> Option<Request>
    ensures value { result ≡ quit_line fields.entry }
    ensures whole { IfSome result IsWhole }
{
    match fields.next() {
        None => Some(Request::Quit),
        Some(_) => None,
    }
}
