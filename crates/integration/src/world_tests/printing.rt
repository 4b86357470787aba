//! The texts of transcripts.

use crate::making::{Fault, holds, key};
use schedules::print_transcript;
use std::alloc::Global;
use std::test::Fail;
use table::{Key, Op, Reply, Target};
use world::{CallTranscript, ConnectionTranscript, Transcript};

// A read of a key, with this reply or none.
fn read_of(key: Key, reply: Option<Reply>) -> CallTranscript {
    CallTranscript {
        target: Target::One(key),
        op: Op::Read,
        reply,
    }
}

// A read that was answered, and one that wasn't.
fn two_calls(alloc: Global) -> Result<Vec<CallTranscript>, Fault> {
    let first = key(alloc, b"a")?;
    let second = key(alloc, b"b")?;
    let answered = read_of(first, Some(Reply::Value(None)));
    let open = read_of(second, None);
    Ok(vec![in alloc; answered, open]?)
}

fn with_two_calls(alloc: Global) -> Result<ConnectionTranscript, Fault> {
    let sent = Vec::from_slice(alloc, b"VALUE a 5 3 1\r\n\n\x00 ~\x7f\\\xa9\x1b\r\rend")?;
    let calls = two_calls(alloc)?;
    Ok(ConnectionTranscript {
        home: 0,
        calls,
        sent,
    })
}

fn of_two_connections(alloc: Global) -> Result<Transcript, Fault> {
    let first = with_two_calls(alloc)?;
    let second = ConnectionTranscript {
        home: 10,
        calls: Vec::new(alloc),
        sent: Vec::new(alloc),
    };
    Ok(Transcript {
        connections: vec![in alloc; first, second]?,
        quiet: false,
    })
}

fn prints(alloc: Global, transcript: &Transcript, wanted: &[u8]) -> Result<bool, Fault> {
    let text = print_transcript(alloc, transcript)?;
    Ok(text.as_slice() == wanted)
}

fn prints_two_connections(alloc: Global) -> Result<bool, Fault> {
    let transcript = of_two_connections(alloc)?;
    prints(
        alloc,
        &transcript,
        b"connection 0 server 0 begun 2 answered 1\n| VALUE a 5 3 1\\r\\n\n| \\n\n| \\x00 ~\\x7f\\\\\\xa9\\x1b\\r\\rend\nconnection 1 server 10 begun 0 answered 0\nnot quiet\n",
    )
}

fn prints_no_connection(alloc: Global) -> Result<bool, Fault> {
    let transcript = Transcript {
        connections: Vec::new(alloc),
        quiet: true,
    };
    prints(alloc, &transcript, b"quiet\n")
}

fn prints_both(alloc: Global) -> Result<bool, Fault> {
    Ok(prints_two_connections(alloc)? && prints_no_connection(alloc)?)
}

#[test]
fn the_text_of_a_transcript(rt: HostRuntime) -> Result<(), Fail> {
    holds(prints_both(rt.alloc()))
}
