//! The text of a transcript.
ghost use Rattle.std.specs.Prelude.{◌≡◌, ◌<◌, ◌∷◌, ◌++◌, IfOk, OnOk, length};
ghost use Rattle.schedules.specs.Splits.{parts};
ghost use Rattle.schedules.specs.Printing.{transcript_text, connection_text, connection_line, labelled, answered};
ghost use Rattle.schedules.specs.Printing.{sent_text, part_line, quiet_line};

use crate::escapes::push_escaped;
use itoa::Buffer;
use memchr::memchr;
use std::alloc::{AllocError, Global};
use world::{CallTranscript, ConnectionTranscript, Transcript};

/// The text of a transcript (this project's format), in time linear in it and into one vector that grows.
pub fn print_transcript(alloc: Global, transcript: &Transcript) -> Result<Vec<u8>, AllocError>
    ensures printed { IfOk result (λ text. text.items ≡ transcript_text transcript.now) }
{
    let mut text = Vec::new(alloc);
    for (number, connection) in transcript.connections.iter().enumerate() {
        push_connection(&mut text, number, connection)?;
    }
    text.extend_from_slice(quiet_line(transcript.quiet))?;
    Ok(text)
}

fn quiet_line(quiet: bool) -> &'static [u8]
    ensures { result.now ≡ quiet_line quiet }
{
    if quiet { b"quiet\n" } else { b"not quiet\n" }
}

fn push_connection(
    text: &mut Vec<u8>,
    number: usize,
    connection: &ConnectionTranscript,
) -> Result<(), AllocError>
    ensures { OnOk result (text.new.items ≡ text.old.items ++ connection_text number connection.now) }
{
    push_connection_line(text, number, connection)?;
    push_sent(text, connection.sent.as_slice())
}

fn push_connection_line(
    text: &mut Vec<u8>,
    number: usize,
    connection: &ConnectionTranscript,
) -> Result<(), AllocError>
    ensures { OnOk result (text.new.items ≡ text.old.items ++ connection_line number connection.now) }
{
    let calls = connection.calls.as_slice();
    push_number(text, b"connection ", number)?;
    push_number(text, b" server ", connection.home)?;
    push_number(text, b" begun ", calls.len())?;
    push_number(text, b" answered ", answered(calls))?;
    text.push(b'\n')?;
    Ok(())
}

#[tactic(auto, unfolding(crate::specs::Printing::labelled))]
fn push_number(text: &mut Vec<u8>, word: &[u8], number: usize) -> Result<(), AllocError>
    ensures { OnOk result (text.new.items ≡ text.old.items ++ labelled word.now number) }
{
    text.extend_from_slice(word)?;
    text.extend_from_slice(Buffer::new().format(number).as_bytes())
}

fn answered(calls: &[CallTranscript]) -> usize
    ensures { result ≡ answered calls.now }
{
    calls.iter().filter(|call| call.reply.is_some()).count()
}

fn push_sent(text: &mut Vec<u8>, sent: &[u8]) -> Result<(), AllocError>
    ensures { OnOk result (text.new.items ≡ text.old.items ++ sent_text sent.now) }
{
    let mut rest = sent;
    while !rest.is_empty() {
        let (part, later) = first_part(rest);
        push_part(text, part)?;
        rest = later;
    }
    Ok(())
}

fn first_part(sent: &[u8]) -> (&[u8], &[u8])
    requires { 0 < length sent.now }
    ensures parts { parts sent.now ≡ result.0.now ∷ parts result.1.now }
    ensures shorter { length result.1.now < length sent.now }
{
    match memchr(b'\n', sent) {
        Some(at) => sent.split_at(at + 1),
        None => (sent, &[]),
    }
}

fn push_part(text: &mut Vec<u8>, part: &[u8]) -> Result<(), AllocError>
    ensures { OnOk result (text.new.items ≡ text.old.items ++ part_line part.now) }
{
    text.extend_from_slice(b"| ")?;
    for b in part {
        push_escaped(text, *b)?;
    }
    text.push(b'\n')?;
    Ok(())
}
