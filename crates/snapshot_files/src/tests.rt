//! Tests: real files, saved, loaded, broken, and refused.
use crate::{LoadFault, SaveFault, load, save, write_snapshot};
use ends::TrackedWriter;
use snapshots::{Flaw, PutFault};
use std::alloc::{AllocError, Global};
use std::fmt::Display;
use std::fs;
use std::fs::OpenOptions;
use std::io::{self, ErrorKind};
use std::os::unix::fs::symlink;
use std::test::Fail;
use table::{Item, Key, LIMIT, SharedBytes};

// Why a helper of a test has no answer.
#[derive(Clone, Copy, Debug)]
enum Fault {
    Memory,
    Refused,
}

impl From<AllocError> for Fault {
    fn from(_e: AllocError) -> Fault {
        Fault::Memory
    }
}

impl From<io::Error> for Fault {
    fn from(_e: io::Error) -> Fault {
        Fault::Refused
    }
}

impl From<SaveFault> for Fault {
    fn from(_e: SaveFault) -> Fault {
        Fault::Refused
    }
}

impl From<LoadFault> for Fault {
    fn from(_e: LoadFault) -> Fault {
        Fault::Refused
    }
}

// What was looked for holds.
fn holds(found: Result<bool, Fault>) -> Result<(), Fail> {
    match found {
        Ok(true) => Ok(()),
        Ok(false) => Err("it holds".into()),
        Err(Fault::Memory) => Err("memory is left".into()),
        Err(Fault::Refused) => Err("nothing is refused".into()),
    }
}

// Written by another program: Python's zlib has the sum. An item `a` of number 1, with flags 5 and data `xyz`; and `b`
// of number 2, without data. The count is 7.
static TWO: &[u8] =
    b"craq snapshot\x01\x02\x02\x00\x00\x00\x00\x00\x00\x00\x00\x00\x01\x00\x00\x00\x00\x00\
      \x00\x00\x00\x01\x01a\x01\x01\x00\x00\x00\x05\x00\x00\x00\x03xyz\x02\x02\x00\x00\x00\x00\
      \x00\x00\x00\x00\x00\x02\x00\x00\x00\x00\x00\x00\x00\x00\x02\x01b\x01\x01\x00\x00\x00\
      \x00\x00\x00\x00\x00\x00\x00\x00\x00\x00\x00\x00\x00\x07\x00\x00\x00\x00\x00\x00\x00\x02\
      \\\xfe\x07\x8c";

fn row(
    alloc: Global,
    name: &[u8],
    flags: u32,
    data: &[u8],
    number: u64,
) -> Result<(Key, Item), Fault> {
    let data = SharedBytes::copy_from_slice(alloc, data)?;
    let item = Item::new(alloc, flags, data, number)?;
    match Key::new(alloc, name)? {
        Some(key) => Ok((key, item)),
        None => Err(Fault::Refused),
    }
}

fn push(
    rows: &mut Vec<(Key, Item)>,
    alloc: Global,
    name: &[u8],
    flags: u32,
    data: &[u8],
    number: u64,
) -> Result<(), Fault> {
    match rows.push(row(alloc, name, flags, data, number)?) {
        Ok(()) => Ok(()),
        Err(_) => Err(Fault::Memory),
    }
}

// The rows of `TWO`.
fn two_rows(alloc: Global) -> Result<Vec<(Key, Item)>, Fault> {
    let mut rows = Vec::new(alloc);
    push(&mut rows, alloc, b"a", 5, b"xyz", 1)?;
    push(&mut rows, alloc, b"b", 0, b"", 2)?;
    Ok(rows)
}

// Rows with data of these sizes.
fn rows_of(alloc: Global, sizes: &[usize]) -> Result<Vec<(Key, Item)>, Fault> {
    let mut rows = Vec::new(alloc);
    let mut number = 0_u64;
    for size in sizes {
        number = number.wrapping_add(3);
        let data = vec![in alloc; b'd'; *size]?;
        push(&mut rows, alloc, b"key", 9, data.as_slice(), number)?;
    }
    Ok(rows)
}

// A new, empty folder.
fn empty_folder(rt: &HostRuntime, folder: &str) -> Result<(), Fault> {
    let _ = fs::remove_dir_all(rt, folder);
    fs::create_dir(rt, folder)?;
    Ok(())
}

fn is_there(rt: &HostRuntime, path: &str) -> bool {
    fs::symlink_metadata(rt, path).is_ok()
}

// Whether the file has these bytes.
fn has(rt: &HostRuntime, path: &str, bytes: &[u8]) -> Result<bool, Fault> {
    Ok(fs::read(rt, path)?.as_slice() == bytes)
}

// Whether rows that are saved over another file are loaded again, and the file is as long as was said.
fn are_loaded(rt: &HostRuntime, path: &str, sizes: &[usize]) -> Result<bool, Fault> {
    let rows = rows_of(rt.alloc(), sizes)?;
    let saved = save(rt, path, rows.as_slice(), 1_000)?;
    let loaded = load(rt, path)?;
    Ok(
        loaded.rows.as_slice() == rows.as_slice()
            && loaded.mark == saved.mark
            && saved.mark.count == 1_000
            && saved.rows == rows.len() as u64
            && saved.bytes == fs::metadata(rt, path)?.len(),
    )
}

fn tables_are_loaded(rt: &HostRuntime) -> Result<bool, Fault> {
    empty_folder(rt, "files_saved")?;
    let path = "files_saved/table";
    let rows = two_rows(rt.alloc())?;
    let saved = save(rt, path, rows.as_slice(), 7)?;
    let same = has(rt, path, TWO)? && saved.bytes == 104 && saved.mark.sum == 0x5cfe_078c;
    let loaded = are_loaded(rt, path, &[])?
        && are_loaded(rt, path, &[0, 1, 300, 40_000, LIMIT, 2])?
        && are_loaded(rt, path, &[65_500, 65_536, 65_537, 1])?;
    let alone = !is_there(rt, "files_saved/table.new");
    fs::remove_dir_all(rt, "files_saved")?;
    Ok(same && loaded && alone)
}

#[test]
fn what_is_saved_is_loaded(rt: HostRuntime) -> Result<(), Fail> {
    holds(tables_are_loaded(&rt))
}

// Whether a file of these bytes is refused so.
fn is_refused(
    rt: &HostRuntime,
    path: &str,
    bytes: &[u8],
    why: (Flaw, u64, u64),
) -> Result<bool, Fault> {
    fs::write(rt, path, bytes)?;
    match load(rt, path) {
        Err(LoadFault::Flawed(flaw, byte, rows)) => Ok((flaw, byte, rows) == why),
        _ => Ok(false),
    }
}

// How many rows stand whole before this byte of `TWO`.
fn rows_before(place: usize) -> u64 {
    if place < 50 {
        0
    } else if place < 83 {
        1
    } else {
        2
    }
}

fn are_cut(rt: &HostRuntime, path: &str) -> Result<bool, Fault> {
    for place in 0..TWO.len() {
        let why = (Flaw::Cut, place as u64, rows_before(place));
        if !is_refused(rt, path, &TWO[..place], why)? {
            return Ok(false);
        }
    }
    Ok(true)
}

// Whether the file is refused with any of its bytes changed, for whatever reason.
fn are_changed(rt: &HostRuntime, path: &str) -> Result<bool, Fault> {
    let mut bytes = Vec::from_slice(rt.alloc(), TWO)?;
    for place in 0..TWO.len() {
        if place >= bytes.len() {
            return Ok(false);
        }
        bytes[place] ^= 1;
        fs::write(rt, path, bytes.as_slice())?;
        if load(rt, path).is_ok() {
            return Ok(false);
        }
        bytes[place] ^= 1;
    }
    Ok(true)
}

fn bad_files_are_refused(rt: &HostRuntime) -> Result<bool, Fault> {
    empty_folder(rt, "files_bad")?;
    let path = "files_bad/table";
    let missing =
        matches!(load(rt, path), Err(LoadFault::Unreadable(e)) if e.kind() == ErrorKind::NotFound);
    let folder = matches!(load(rt, "files_bad"), Err(LoadFault::Unreadable(_)));
    let broken = are_cut(rt, path)? && are_changed(rt, path)?;
    let foreign = is_refused(rt, path, b"", (Flaw::Cut, 0, 0))?
        && is_refused(rt, path, b"port 11211\n", (Flaw::Foreign, 0, 0))?
        && is_refused(rt, path, b"craq snapshot\x02", (Flaw::OtherFormat, 0, 0))?;
    fs::remove_dir_all(rt, "files_bad")?;
    Ok(missing && folder && broken && foreign)
}

#[test]
fn bad_files_are_not_loaded(rt: HostRuntime) -> Result<(), Fail> {
    holds(bad_files_are_refused(&rt))
}

// Whether the file still is `TWO`, and nothing stands beside it.
fn is_left(rt: &HostRuntime, path: &str, beside: &str) -> Result<bool, Fault> {
    Ok(has(rt, path, TWO)? && !is_there(rt, beside))
}

// Rows of which the second one's number isn't above; with a count that is too low; and with data that is too large.
fn rows_are_refused(rt: &HostRuntime, path: &str, beside: &str) -> Result<bool, Fault> {
    let alloc = rt.alloc();
    let mut again = rows_of(alloc, &[1, 2])?;
    push(&mut again, alloc, b"b", 0, b"", 6)?;
    let rows = two_rows(alloc)?;
    let large = rows_of(alloc, &[1, LIMIT + 1])?;
    let repeated = save(rt, path, again.as_slice(), 9);
    let low = save(rt, path, rows.as_slice(), 1);
    let above = save(rt, path, large.as_slice(), 9);
    Ok(
        matches!(repeated, Err(SaveFault::Row(PutFault::NotRising, 2)))
            && matches!(low, Err(SaveFault::AboveCount))
            && matches!(above, Err(SaveFault::Row(PutFault::TooLarge, 1)))
            && is_left(rt, path, beside)?,
    )
}

// A path at which a folder, or a link, stands; whose folder isn't there; and beside which something stands.
fn places_are_refused(rt: &HostRuntime, path: &str, beside: &str) -> Result<bool, Fault> {
    let rows = two_rows(rt.alloc())?;
    fs::create_dir(rt, "files_kept/folder")?;
    symlink(rt, "table", "files_kept/link")?;
    let folder = save(rt, "files_kept/folder", rows.as_slice(), 3);
    let link = save(rt, "files_kept/link", rows.as_slice(), 3);
    let nowhere = save(rt, "files_kept/nowhere/table", rows.as_slice(), 3);
    fs::write(rt, beside, b"other".as_slice())?;
    let taken = save(rt, path, rows.as_slice(), 3);
    let kept = has(rt, beside, b"other")?;
    fs::remove_file(rt, beside)?;
    Ok(
        matches!(folder, Err(SaveFault::NotFile))
            && matches!(link, Err(SaveFault::NotFile))
            && matches!(nowhere, Err(SaveFault::Unwritten(e)) if e.kind() == ErrorKind::NotFound)
            && matches!(taken, Err(SaveFault::Taken))
            && kept
            && is_left(rt, path, beside)?,
    )
}

// A device that takes no byte.
fn full_is_told(rt: &HostRuntime) -> Result<bool, Fault> {
    let rows = two_rows(rt.alloc())?;
    let full = OpenOptions::new().write(true).open(rt, "/dev/full")?;
    let mut sink = TrackedWriter::new(full);
    let written = write_snapshot(rt.alloc(), &mut sink, rows.as_slice(), 7);
    Ok(matches!(written, Err(SaveFault::Unwritten(e)) if e.kind() == ErrorKind::StorageFull))
}

fn refused_saves_leave_the_file(rt: &HostRuntime) -> Result<bool, Fault> {
    empty_folder(rt, "files_kept")?;
    let path = "files_kept/table";
    let beside = "files_kept/table.new";
    fs::write(rt, path, TWO)?;
    let kept = rows_are_refused(rt, path, beside)? && places_are_refused(rt, path, beside)?;
    fs::remove_dir_all(rt, "files_kept")?;
    Ok(kept && full_is_told(rt)?)
}

#[test]
fn refused_saves_change_nothing(rt: HostRuntime) -> Result<(), Fail> {
    holds(refused_saves_leave_the_file(&rt))
}

// Whether a fault is told so.
fn is_told<E: Display + Drop>(alloc: Global, fault: E, text: &str) -> Result<bool, Fault> {
    Ok(format!(in alloc; "{fault}")?.as_str() == text)
}

fn faults_are_told(alloc: Global) -> Result<bool, Fault> {
    let missing = io::Error::from(ErrorKind::NotFound);
    Ok(
        is_told(
            alloc,
            LoadFault::Flawed(Flaw::OtherSum, 83, 2),
            "byte 83, behind 2 items: the sum is another",
        )? && is_told(
            alloc,
            LoadFault::Unreadable(missing),
            "the file can't be read: entity not found",
        )? && is_told(
            alloc,
            SaveFault::Row(PutFault::NotRising, 1),
            "behind 1 items: an item's number isn't above the one before",
        )? && is_told(
            alloc,
            SaveFault::Unwritten(missing),
            "the new file can't be written: entity not found",
        )?,
    )
}

#[test]
fn faults_have_lines(rt: HostRuntime) -> Result<(), Fail> {
    holds(faults_are_told(rt.alloc()))
}
