//! Sessions over a plain table: texts, and what waits or closes.
ghost use Rattle.std.specs.Prelude.{◌≡◌, ◌<◌, true, IfOk, OnOk, None};
ghost use Rattle.proto.specs.Sessions.{CanAnswer, IsOpenCall};
ghost use Rattle.proto.specs.Streams.{most_turns};

use crate::making::{Fault, all_hold, holds};
use proto::{ProtoFault, Session, Step as Next};
use std::alloc::Global;
use std::test::Fail;
use table::{Op, Reply, Table, Target};

impl From<ProtoFault> for Fault {
    fn from(fault: ProtoFault) -> Fault {
        match fault {
            ProtoFault::Memory => Fault::Memory,
            ProtoFault::Closed => Fault::Refused,
        }
    }
}

// The next turn of a connection over a plain table: whether there was one. Each leaves fewer.
fn turn(session: &mut Session, table: &mut Table) -> Result<bool, Fault>
    requires { session.old.asked ≡ None }
    ensures idle { OnOk result (session.new.asked ≡ None) }
    ensures fewer { IfOk result (λ goes_on. goes_on ≡ true → most_turns session.new < most_turns session.old) }
{
    match session.next()? {
        Next::Call(target, op) => {
            let answered = has_answered(session, table, &target, &op);
            drop(target);
            drop(op);
            answered
        }
        Next::Emit => Ok(true),
        Next::Wait | Next::Close => Ok(false),
    }
}

// The call that is open is carried out and answered: true.
fn has_answered(
    session: &mut Session,
    table: &mut Table,
    target: &Target,
    op: &Op,
) -> Result<bool, Fault>
    requires { IsOpenCall target.now op.now session.old.asked }
    ensures idle { OnOk result (session.new.asked ≡ None) }
    ensures as_many { OnOk result (most_turns session.new ≡ most_turns session.old) }
{
    let reply = table.call(target, op)?;
    let given = has_given(session, &reply);
    drop(reply);
    given
}

fn has_given(session: &mut Session, reply: &Reply) -> Result<bool, Fault>
    requires { CanAnswer session.old.asked reply.now }
    ensures idle { OnOk result (session.new.asked ≡ None) }
    ensures as_many { OnOk result (most_turns session.new ≡ most_turns session.old) }
{
    session.answer(reply)?;
    Ok(true)
}

// All turns that there are: each leaves fewer, so the loop ends.
fn settle(session: &mut Session, table: &mut Table) -> Result<(), Fault>
    requires { session.old.asked ≡ None }
    ensures { OnOk result (session.new.asked ≡ None) }
{
    'turns: loop {
        if !turn(session, table)? {
            return Ok(());
        }
    }
}

// The next turn of a connection that refuses each update, and finds no item: whether there was one.
fn turn_without_room(session: &mut Session) -> Result<bool, Fault>
    requires { session.old.asked ≡ None }
    ensures { OnOk result (session.new.asked ≡ None) }
{
    match session.next()? {
        Next::Call(target, op) => {
            let refused = has_refused(session, &target, &op);
            drop(target);
            drop(op);
            refused
        }
        Next::Emit => Ok(true),
        Next::Wait | Next::Close => Ok(false),
    }
}

// The call that is open is refused if it is an update, and finds no item else: true.
fn has_refused(session: &mut Session, target: &Target, op: &Op) -> Result<bool, Fault>
    requires { IsOpenCall target.now op.now session.old.asked }
    ensures { OnOk result (session.new.asked ≡ None) }
{
    let _ = target;
    if op.is_update() {
        session.refuse()?;
        Ok(true)
    } else {
        let none = Reply::Value(None);
        let given = has_given(session, &none);
        drop(none);
        given
    }
}

// The output is taken in pieces of five bytes.
fn take_some(session: &mut Session, written: &mut Vec<u8>) -> Result<(), Fault>
    ensures { OnOk result (session.new.asked ≡ session.old.asked) }
{
    let n = session.out().len().min(5);
    written.extend_from_slice(&session.out()[..n])?;
    session.taken(n);
    Ok(())
}

// A closed session takes no more of its input.
fn feed_open(session: &mut Session, piece: &[u8]) -> Result<(), Fault>
    ensures { OnOk result (session.new.asked ≡ session.old.asked) }
{
    match session.feed(piece) {
        Ok(()) | Err(ProtoFault::Closed) => Ok(()),
        Err(fault) => Err(fault.into()),
    }
}

// One piece of the input, its turns, and some of their output.
fn pass(
    session: &mut Session,
    table: &mut Table,
    piece: &[u8],
    written: &mut Vec<u8>,
) -> Result<(), Fault>
    requires { session.old.asked ≡ None }
    ensures { OnOk result (session.new.asked ≡ None) }
{
    feed_open(session, piece)?;
    settle(session, table)?;
    take_some(session, written)
}

fn written_by(
    alloc: Global,
    session: &mut Session,
    table: &mut Table,
    input: &[u8],
    piece: usize,
) -> Result<Vec<u8>, Fault>
    requires some { 0 < piece }
    requires idle { session.old.asked ≡ None }
{
    let mut written = Vec::new(alloc);
    for part in input.chunks(piece) {
        pass(session, table, part, &mut written)?;
    }
    written.extend_from_slice(session.out())?;
    Ok(written)
}

// Whether this is written if the input comes in pieces of n bytes. A closed session takes no more of them.
fn is_written(alloc: Global, input: &[u8], piece: usize, wanted: &[u8]) -> Result<bool, Fault>
    requires { 0 < piece }
{
    let mut session = Session::new(alloc);
    let mut table = Table::new(alloc);
    let written = written_by(alloc, &mut session, &mut table, input, piece);
    drop(session);
    drop(table);
    Ok(written?.as_slice() == wanted)
}

// The same of pieces of each of these sizes.
fn is_written_in(
    alloc: Global,
    input: &[u8],
    pieces: &[usize],
    wanted: &[u8],
) -> Result<bool, Fault> {
    for piece in pieces {
        if *piece == 0 || !is_written(alloc, input, *piece, wanted)? {
            return Ok(false);
        }
    }
    Ok(true)
}

// An input, and all that is written for it.
type Text = (&'static [u8], &'static [u8]);

// The first input for which something else is written, in pieces of some size.
fn other_text(alloc: Global, texts: &[Text]) -> Result<Option<usize>, Fault> {
    let mut place = 0_usize;
    for text in texts {
        let (input, wanted) = *text;
        if !is_written_in(alloc, input, &[1, 7, 4096], wanted)? {
            return Ok(Some(place));
        }
        place = place.wrapping_add(1);
    }
    Ok(None)
}

static SET_THEN_GETS: [Text; 2] = [
    (b"get a\r\n", b"END\r\n"),
    (
        b"set a 5 0 3\r\nxyz\r\ngets a\r\nget b a\r\n",
        b"STORED\r\nVALUE a 5 3 1\r\nxyz\r\nEND\r\nVALUE a 5 3\r\nxyz\r\nEND\r\n",
    ),
];

#[test]
fn set_then_gets(rt: HostRuntime) -> Result<(), Fail> {
    all_hold(other_text(rt.alloc(), &SET_THEN_GETS))
}

static FAULTS: [Text; 3] = [
    (
        b"set a 0 0 3\r\nxyzw\r\nget a\r\n",
        b"CLIENT_ERROR bad data chunk\r\nERROR\r\nEND\r\n",
    ),
    (
        b"get\r\nget  a\r\nset a 0 0 x\r\nGET a\r\nget a\n",
        b"CLIENT_ERROR bad command line format\r\nCLIENT_ERROR bad command line format\r\nCLIENT_ERROR bad command line format\r\nERROR\r\nERROR\r\n",
    ),
    (
        b"set a 0 7 1\r\n1\r\nset a 0 -0 1\r\n2\r\nset a 0 00 1\r\n3\r\nset a 0 - 1\r\nget a\r\n",
        b"CLIENT_ERROR expiry is not supported\r\nCLIENT_ERROR expiry is not supported\r\nSTORED\r\nCLIENT_ERROR bad command line format\r\nVALUE a 0 1\r\n3\r\nEND\r\n",
    ),
];

#[test]
fn faults(rt: HostRuntime) -> Result<(), Fail> {
    all_hold(other_text(rt.alloc(), &FAULTS))
}

// A number that is too large is a bad format, and its line alone is consumed. No block of 2^32 - 1 bytes comes here.
static NUMBERS: [Text; 3] = [
    (
        b"set a 4294967295 0 1\r\n1\r\nset a 4294967296 0 1\r\nset a 0 0 4294967296\r\nset a -5 0 1\r\nget a\r\nset a 0 0 4294967295\r\nget a\r\n",
        b"STORED\r\nCLIENT_ERROR bad command line format\r\nCLIENT_ERROR bad command line format\r\nCLIENT_ERROR bad command line format\r\nVALUE a 4294967295 1\r\n1\r\nEND\r\n",
    ),
    (
        b"set n 0 0 1\r\n0\r\nincr n 18446744073709551615\r\nincr n 18446744073709551616\r\ndecr n 18446744073709551616\r\nincr n -5\r\ndecr n 18446744073709551615\r\n",
        b"STORED\r\n18446744073709551615\r\nCLIENT_ERROR bad command line format\r\nCLIENT_ERROR bad command line format\r\nCLIENT_ERROR bad command line format\r\n0\r\n",
    ),
    (
        b"set a 0 -5 1\r\n1\r\nset a 0 --1 1\r\nset a 0 0 1\r\n1\r\ncas a 0 0 1 18446744073709551615\r\n2\r\ncas a 0 0 1 18446744073709551616\r\n",
        b"CLIENT_ERROR expiry is not supported\r\nCLIENT_ERROR bad command line format\r\nSTORED\r\nEXISTS\r\nCLIENT_ERROR bad command line format\r\n",
    ),
];

#[test]
fn numbers_at_their_limits(rt: HostRuntime) -> Result<(), Fail> {
    all_hold(other_text(rt.alloc(), &NUMBERS))
}

// Bytes 33, 128 and 255 stand in keys; 127 and a tab don't, and 32 stands between two fields.
static KEY_BYTES: [Text; 1] = [(
    b"set ! 0 0 1\r\n1\r\nset \x80 0 0 1\r\n2\r\nset \xff 0 0 1\r\n3\r\nget \xff \x80 !\r\nget a\x7f\r\nget a\tb\r\ndelete a b\r\n",
    b"STORED\r\nSTORED\r\nSTORED\r\nVALUE \xff 0 1\r\n3\r\nVALUE \x80 0 1\r\n2\r\nVALUE ! 0 1\r\n1\r\nEND\r\nCLIENT_ERROR bad command line format\r\nCLIENT_ERROR bad command line format\r\nCLIENT_ERROR bad command line format\r\n",
)];

#[test]
fn key_bytes_at_their_limits(rt: HostRuntime) -> Result<(), Fail> {
    all_hold(other_text(rt.alloc(), &KEY_BYTES))
}

// A line, n bytes `x`, and what follows them.
fn with_block(alloc: Global, line: &[u8], size: usize, behind: &[u8]) -> Result<Vec<u8>, Fault> {
    let mut input = Vec::from_slice(alloc, line)?;
    let block = vec![in alloc; b'x'; size]?;
    input.extend_from_slice(block.as_slice())?;
    input.extend_from_slice(behind)?;
    Ok(input)
}

// Whether a block of this size is refused, in one piece and in pieces of 4,095 bytes.
fn is_too_large(alloc: Global, size: usize) -> Result<bool, Fault> {
    let input = with_block(alloc, b"set b 0 7 1048577\r\n", size, b"xxget b\r\n")?;
    let wanted = b"SERVER_ERROR object too large for cache\r\nEND\r\n";
    is_written_in(alloc, input.as_slice(), &[input.len(), 4095], wanted)
}

// A block larger than an item may be is refused before its expiry time and its last two bytes are looked at.
#[test]
fn too_large(rt: HostRuntime) -> Result<(), Fail> {
    holds(is_too_large(rt.alloc(), 1_048_577))
}

// What happens to a session, and what is seen of it then.
#[derive(Clone, Copy)]
enum Step<'a> {
    // A piece of the input comes.
    Feeds(&'a [u8]),
    // There is a turn or there is none.
    Turns(bool),
    // The same at a connection that refuses each update, and finds no item.
    TurnsWithoutRoom(bool),
    // All turns that there are.
    Settles,
    // This is all output so far.
    Writes(&'a [u8]),
    // It takes no more of its input.
    IsClosed,
}

fn goes(session: &mut Session, table: &mut Table, step: Step<'_>) -> Result<bool, Fault>
    requires { session.old.asked ≡ None }
    ensures { OnOk result (session.new.asked ≡ None) }
{
    match step {
        Step::Feeds(piece) => {
            session.feed(piece)?;
            Ok(true)
        }
        Step::Turns(wanted) => Ok(turn(session, table)? == wanted),
        Step::TurnsWithoutRoom(wanted) => Ok(turn_without_room(session)? == wanted),
        Step::Settles => {
            settle(session, table)?;
            Ok(true)
        }
        Step::Writes(wanted) => Ok(session.out() == wanted),
        Step::IsClosed => match session.feed(b"get a\r\n") {
            Ok(()) => Ok(false),
            Err(ProtoFault::Closed) => Ok(true),
            Err(fault) => Err(fault.into()),
        },
    }
}

fn other_step(
    session: &mut Session,
    table: &mut Table,
    steps: &[Step<'_>],
) -> Result<Option<usize>, Fault>
    requires { session.old.asked ≡ None }
{
    let mut place = 0_usize;
    for step in steps {
        if !goes(session, table, *step)? {
            return Ok(Some(place));
        }
        place = place.wrapping_add(1);
    }
    Ok(None)
}

// The first step of a new session over an empty table that goes otherwise than it says.
fn other_of_new(alloc: Global, steps: &[Step<'_>]) -> Result<Option<usize>, Fault> {
    let mut session = Session::new(alloc);
    let mut table = Table::new(alloc);
    let other = other_step(&mut session, &mut table, steps);
    drop(session);
    drop(table);
    other
}

// A refusal writes a line, and nothing if its line said `noreply`; the next request follows.
static REFUSALS: [Step; 6] = [
    Step::Feeds(b"set a 0 0 1\r\n1\r\nset a 0 0 1 noreply\r\n2\r\nget a\r\n"),
    Step::TurnsWithoutRoom(true),
    Step::TurnsWithoutRoom(true),
    Step::TurnsWithoutRoom(true),
    Step::TurnsWithoutRoom(false),
    Step::Writes(b"SERVER_ERROR out of memory storing object\r\nEND\r\n"),
];

#[test]
fn refusals(rt: HostRuntime) -> Result<(), Fail> {
    all_hold(other_of_new(rt.alloc(), &REFUSALS))
}

// A refused block's fault stands in turn only after its last byte, and is written once.
static REFUSED_BLOCK: [Step; 11] = [
    Step::Feeds(b"set a 0 7 9\r\n"),
    Step::Turns(false),
    Step::Feeds(b"xxx"),
    Step::Turns(false),
    Step::Feeds(b"xxxxxx\r"),
    Step::Turns(false),
    Step::Writes(b""),
    Step::Feeds(b"\nget a\r\n"),
    Step::Turns(true),
    Step::Settles,
    Step::Writes(b"CLIENT_ERROR expiry is not supported\r\nEND\r\n"),
];

#[test]
fn a_refused_block_is_passed_over(rt: HostRuntime) -> Result<(), Fail> {
    all_hold(other_of_new(rt.alloc(), &REFUSED_BLOCK))
}

// There is no turn after the first bytes of a line without end, one after its 2,048th, and then none.
fn other_of_a_long_line(alloc: Global) -> Result<Option<usize>, Fault> {
    let line = vec![in alloc; b'q'; 2048]?;
    let steps = [
        Step::Feeds(&line[..2047]),
        Step::Turns(false),
        Step::Feeds(&line[2047..]),
        Step::Turns(true),
        Step::Turns(false),
        Step::Writes(b"CLIENT_ERROR line too long\r\n"),
        Step::IsClosed,
    ];
    other_of_new(alloc, &steps)
}

#[test]
fn a_line_that_is_too_long_closes(rt: HostRuntime) -> Result<(), Fail> {
    all_hold(other_of_a_long_line(rt.alloc()))
}
