//! Tests: snapshots read back in any pieces, bytes from outside, and what is refused at which byte.
use crate::{Flaw, PutFault, SnapshotFault, SnapshotReader, SnapshotWriter, TableMark};
use bytes::BytesMut;
use std::alloc::{AllocError, Global};
use std::test::Fail;
use table::{Item, Key, LIMIT, SharedBytes};

// Why a helper of a test has no answer.
#[derive(Clone, Copy, Debug)]
enum Fault {
    Memory,
    Refused,
}

impl From<AllocError> for Fault {
    fn from(_e: AllocError) -> Fault {
        Fault::Memory
    }
}

impl From<SnapshotFault> for Fault {
    fn from(_e: SnapshotFault) -> Fault {
        Fault::Refused
    }
}

impl From<PutFault> for Fault {
    fn from(_e: PutFault) -> Fault {
        Fault::Refused
    }
}

// What was looked for holds.
fn holds(found: Result<bool, Fault>) -> Result<(), Fail> {
    match found {
        Ok(true) => Ok(()),
        Ok(false) => Err("it holds".into()),
        Err(Fault::Memory) => Err("memory is left".into()),
        Err(Fault::Refused) => Err("nothing is refused".into()),
    }
}

// Written by another program: Python's zlib has the sums. An item `a` of number 1, with flags 5 and data `xyz`; and `b`
// of number 2, without data.
static TWO: &[u8] =
    b"craq snapshot\x01\x02\x02\x00\x00\x00\x00\x00\x00\x00\x00\x00\x01\x00\x00\x00\x00\x00\
      \x00\x00\x00\x01\x01a\x01\x01\x00\x00\x00\x05\x00\x00\x00\x03xyz\x02\x02\x00\x00\x00\x00\
      \x00\x00\x00\x00\x00\x02\x00\x00\x00\x00\x00\x00\x00\x00\x02\x01b\x01\x01\x00\x00\x00\
      \x00\x00\x00\x00\x00\x00\x00\x00\x00\x00\x00\x00\x00\x07\x00\x00\x00\x00\x00\x00\x00\x02\
      \\\xfe\x07\x8c";

// Bytes, what is wrong with them, and where: from another program too.
static FLAWED: [(&[u8], Flaw, u64); 19] = [
    (b"craq snapshoT", Flaw::Foreign, 0),
    (b"x", Flaw::Foreign, 0),
    (b"craq snapshot\x02", Flaw::OtherFormat, 0),
    (b"craq snapshot\x01\x03", Flaw::BadFrame, 14),
    (b"craq snapshot\x01\x01", Flaw::BadFrame, 14),
    (
        b"craq snapshot\x01\x02\x02\x00\x00\x00\x00\x00\x00\x00\x00\x00\x00\x00\x00\x00\x00\x00\
          \x00\x00\x00\x00\x01a\x01\x01\x00\x00\x00\x05\x00\x00\x00\x03xyz",
        Flaw::BadFrame,
        14,
    ),
    (
        b"craq snapshot\x01\x02\x02\x00\x00\x00\x00\x00\x00\x00\x00\x00\x01\x00\x00\x00\x00\x00\
          \x00\x00\x00\x01\x01a\x01\x01\x00\x00\x00\x05\x00\x00\x00\x03xyz\x02\x11",
        Flaw::BadFrame,
        50,
    ),
    (
        b"craq snapshot\x01\x02\x02\x00\x00\x00\x00\x00\x00\x00\x00\x00\x01\x01\x00\x00\x00\x00\
          \x00\x00\x00\x01\x01a\x01\x01\x00\x00\x00\x05\x00\x00\x00\x03xyz",
        Flaw::NotRow,
        14,
    ),
    (
        b"craq snapshot\x01\x02\x02\x00\x00\x00\x00\x00\x00\x00\x00\x00\x01\x00\x00\x00\x00\x00\
          \x00\x00\x00\x02\x01a\x01\x01\x00\x00\x00\x05\x00\x00\x00\x03xyz",
        Flaw::NotRow,
        14,
    ),
    (
        b"craq snapshot\x01\x02\x02\x00\x00\x00\x00\x00\x00\x00\x00\x00\x01\x00\x00\x00\x00\x00\
          \x00\x00\x00\x01\x01a\x02\x01\x00\x00\x00\x05\x00\x00\x00\x03xyz",
        Flaw::NotRow,
        14,
    ),
    (
        b"craq snapshot\x01\x02\x02\x00\x01\x00\x00\x00\x00\x00\x00\x00\x01\x00\x00\x00\x00\x00\
          \x00\x00\x00\x01\x01a\x01\x01\x00\x00\x00\x05\x00\x00\x00\x03xyz",
        Flaw::NotRow,
        14,
    ),
    (
        b"craq snapshot\x01\x02\x03\x00\x00\x00\x00\x00\x00\x00\x00\x00\x01",
        Flaw::NotRow,
        14,
    ),
    (
        b"craq snapshot\x01\x02\x02\x00\x00\x00\x00\x00\x00\x00\x00\x00\x01\x00\x00\x00\x00\x00\
          \x00\x00\x00\x01\x01a\x01\x01\x00\x00\x00\x05\x00\x00\x00\x03xyz\x02\x02\x00\x00\x00\x00\
          \x00\x00\x00\x00\x00\x01\x00\x00\x00\x00\x00\x00\x00\x00\x01\x01a\x01\x01\x00\x00\x00\
          \x05\x00\x00\x00\x03xyz",
        Flaw::NotRising,
        50,
    ),
    (
        b"craq snapshot\x01\x02\x02\x00\x00\x00\x00\x00\x00\x00\x00\x00\x02\x00\x00\x00\x00\x00\
          \x00\x00\x00\x02\x01b\x01\x01\x00\x00\x00\x00\x00\x00\x00\x00\x02\x02\x00\x00\x00\x00\
          \x00\x00\x00\x00\x00\x01\x00\x00\x00\x00\x00\x00\x00\x00\x01\x01a\x01\x01\x00\x00\x00\
          \x05\x00\x00\x00\x03xyz",
        Flaw::NotRising,
        47,
    ),
    (
        b"craq snapshot\x01\x02\x02\x00\x00\x00\x00\x00\x00\x00\x00\x00\x01\x00\x00\x00\x00\x00\
          \x00\x00\x00\x01\x01a\x01\x01\x00\x00\x00\x05\x00\x00\x00\x03xyz\x02\x02\x00\x00\x00\x00\
          \x00\x00\x00\x00\x00\x02\x00\x00\x00\x00\x00\x00\x00\x00\x02\x01b\x01\x01\x00\x00\x00\
          \x00\x00\x00\x00\x00\x00\x00\x00\x00\x00\x00\x00\x00\x07\x00\x00\x00\x00\x00\x00\x00\x02\
          \\\xfe\x07\x8c\x00",
        Flaw::Trailing,
        104,
    ),
    (
        b"craq snapshot\x01\x02\x02\x00\x00\x00\x00\x00\x00\x00\x00\x00\x01\x00\x00\x00\x00\x00\
          \x00\x00\x00\x01\x01a\x01\x01\x00\x00\x00\x05\x00\x00\x00\x03xyz\x02\x02\x00\x00\x00\x00\
          \x00\x00\x00\x00\x00\x02\x00\x00\x00\x00\x00\x00\x00\x00\x02\x01b\x01\x01\x00\x00\x00\
          \x00\x00\x00\x00\x00\x00\x00\x00\x00\x00\x00\x00\x00\x07\x00\x00\x00\x00\x00\x00\x00\x02\
          \\\xfe\x07\x8d",
        Flaw::OtherSum,
        83,
    ),
    (
        b"craq snapshot\x01\x02\x02\x00\x00\x00\x00\x00\x00\x00\x00\x00\x01\x00\x00\x00\x00\x00\
          \x00\x00\x00\x01\x01a\x01\x01\x00\x00\x00\x05\x00\x00\x00\x03xwz\x02\x02\x00\x00\x00\x00\
          \x00\x00\x00\x00\x00\x02\x00\x00\x00\x00\x00\x00\x00\x00\x02\x01b\x01\x01\x00\x00\x00\
          \x00\x00\x00\x00\x00\x00\x00\x00\x00\x00\x00\x00\x00\x07\x00\x00\x00\x00\x00\x00\x00\x02\
          \\\xfe\x07\x8c",
        Flaw::OtherSum,
        83,
    ),
    (
        b"craq snapshot\x01\x02\x02\x00\x00\x00\x00\x00\x00\x00\x00\x00\x01\x00\x00\x00\x00\x00\
          \x00\x00\x00\x01\x01a\x01\x01\x00\x00\x00\x05\x00\x00\x00\x03xyz\x00\x00\x00\x00\x00\x00\
          \x00\x00\x01\x00\x00\x00\x00\x00\x00\x00\x02f\x89\x07\x19",
        Flaw::OtherRows,
        50,
    ),
    (
        b"craq snapshot\x01\x02\x02\x00\x00\x00\x00\x00\x00\x00\x00\x00\x02\x00\x00\x00\x00\x00\
          \x00\x00\x00\x02\x01b\x01\x01\x00\x00\x00\x00\x00\x00\x00\x00\x00\x00\x00\x00\x00\x00\
          \x00\x00\x01\x00\x00\x00\x00\x00\x00\x00\x01:U\x05\xa8",
        Flaw::AboveCount,
        47,
    ),
];

fn key(alloc: Global, name: &[u8]) -> Result<Key, Fault> {
    match Key::new(alloc, name)? {
        Some(key) => Ok(key),
        None => Err(Fault::Refused),
    }
}

fn item(alloc: Global, flags: u32, data: &[u8], number: u64) -> Result<Item, Fault> {
    let data = SharedBytes::copy_from_slice(alloc, data)?;
    Ok(Item::new(alloc, flags, data, number)?)
}

// What came of putting a row.
fn put(
    alloc: Global,
    writer: &mut SnapshotWriter,
    out: &mut BytesMut,
    name: &[u8],
    item: &Item,
) -> Result<Result<(), PutFault>, Fault> {
    let key = key(alloc, name)?;
    let put = writer.put(out, &key, item);
    drop(key);
    Ok(put)
}

fn put_data(
    alloc: Global,
    writer: &mut SnapshotWriter,
    out: &mut BytesMut,
    name: &[u8],
    data: &[u8],
    number: u64,
) -> Result<Result<(), PutFault>, Fault> {
    let item = item(alloc, 5, data, number)?;
    let done = put(alloc, writer, out, name, &item);
    drop(item);
    done
}

// Reads on until there is no row, and puts the rows into another snapshot: each takes a byte at least.
fn copy_rows(
    reader: &mut SnapshotReader,
    most: usize,
    writer: &mut SnapshotWriter,
    out: &mut BytesMut,
) -> Result<(), SnapshotFault> {
    for _ in 0..most {
        match reader.next()? {
            Some((key, item)) => {
                let put = writer.put(out, &key, &item);
                drop(key);
                drop(item);
                if put.is_err() {
                    return Err(SnapshotFault::Memory);
                }
            }
            None => return Ok(()),
        }
    }
    Ok(())
}

// What comes of reading these bytes in pieces of so many, and writing what was read.
fn copied(
    alloc: Global,
    bytes: &[u8],
    size: usize,
    out: &mut BytesMut,
) -> Result<TableMark, SnapshotFault> {
    if size == 0 {
        return Err(SnapshotFault::Memory);
    }
    let mut reader = SnapshotReader::new(alloc);
    let mut writer = SnapshotWriter::begin(alloc, out)?;
    for piece in bytes.chunks(size) {
        reader.feed(piece)?;
        copy_rows(&mut reader, bytes.len(), &mut writer, out)?;
    }
    let mark = reader.end()?;
    match writer.end(out, mark.count) {
        Ok(again) if again == mark => Ok(mark),
        _ => Err(SnapshotFault::Memory),
    }
}

// Whether these bytes are read in pieces of so many, and written again.
fn is_copied(alloc: Global, bytes: &[u8], size: usize) -> Result<bool, Fault> {
    let mut out = BytesMut::new(alloc);
    copied(alloc, bytes, size, &mut out)?;
    Ok(out.as_slice() == bytes)
}

fn are_copied(alloc: Global, bytes: &[u8]) -> Result<bool, Fault> {
    for size in [1, 2, 3, 5, 14, 21, 1_000, 100_000] {
        if !is_copied(alloc, bytes, size)? {
            return Ok(false);
        }
    }
    Ok(true)
}

#[test]
fn bytes_from_outside_are_read_in_any_pieces(rt: HostRuntime) -> Result<(), Fail> {
    holds(are_copied(rt.alloc(), TWO))
}

// Writes some rows, with data of these sizes.
fn written(alloc: Global, sizes: &[usize], out: &mut BytesMut) -> Result<TableMark, Fault> {
    let mut writer = SnapshotWriter::begin(alloc, out)?;
    let mut number = 0_u64;
    for size in sizes {
        number = number.wrapping_add(3);
        let data = vec![in alloc; b'd'; *size]?;
        put_data(alloc, &mut writer, out, b"key", data.as_slice(), number)??;
    }
    Ok(writer.end(out, number)?)
}

fn written_is_read(alloc: Global) -> Result<bool, Fault> {
    let mut out = BytesMut::new(alloc);
    written(alloc, &[0, 1, 300, 40_000, LIMIT, 2], &mut out)?;
    Ok(is_copied(alloc, out.as_slice(), 10_000)? && is_copied(alloc, out.as_slice(), 3_000_000)?)
}

#[test]
fn what_is_written_is_read(rt: HostRuntime) -> Result<(), Fail> {
    holds(written_is_read(rt.alloc()))
}

// Whether these bytes are refused for this.
fn is_refused(alloc: Global, bytes: &[u8], size: usize, flaw: Flaw, place: u64) -> bool {
    let mut out = BytesMut::new(alloc);
    copied(alloc, bytes, size, &mut out) == Err(SnapshotFault::Flawed(flaw, place))
}

fn are_refused(alloc: Global) -> Result<bool, Fault> {
    for (bytes, flaw, place) in &FLAWED {
        for size in [1, 7, 1_000] {
            if !is_refused(alloc, bytes, size, *flaw, *place) {
                return Ok(false);
            }
        }
    }
    Ok(true)
}

#[test]
fn flawed_bytes_are_refused(rt: HostRuntime) -> Result<(), Fail> {
    holds(are_refused(rt.alloc()))
}

fn are_cut(alloc: Global) -> Result<bool, Fault> {
    for place in 0..TWO.len() {
        if !is_refused(alloc, &TWO[..place], 1_000, Flaw::Cut, place as u64) {
            return Ok(false);
        }
    }
    Ok(true)
}

#[test]
fn each_beginning_is_cut(rt: HostRuntime) -> Result<(), Fail> {
    holds(are_cut(rt.alloc()))
}

// What a writer refuses, with data of this size, which is too large.
fn puts_are_refused(alloc: Global, size: usize) -> Result<bool, Fault> {
    let mut out = BytesMut::new(alloc);
    let mut writer = SnapshotWriter::begin(alloc, &mut out)?;
    let large = vec![in alloc; 0_u8; size]?;
    let zero = put_data(alloc, &mut writer, &mut out, b"a", b"", 0)?;
    let first = put_data(alloc, &mut writer, &mut out, b"a", b"", 4)?;
    let again = put_data(alloc, &mut writer, &mut out, b"b", b"", 4)?;
    let above = put_data(alloc, &mut writer, &mut out, b"b", large.as_slice(), 5)?;
    let end = writer.end(&mut out, 3);
    Ok(
        zero == Err(PutFault::NotRising)
            && first == Ok(())
            && again == Err(PutFault::NotRising)
            && above == Err(PutFault::TooLarge)
            && end == Err(PutFault::AboveCount),
    )
}

#[test]
fn rows_out_of_order_are_refused(rt: HostRuntime) -> Result<(), Fail> {
    holds(puts_are_refused(rt.alloc(), LIMIT + 1))
}
