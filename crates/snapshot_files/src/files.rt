//! Files: a table saved to one and loaded again.
ghost use Rattle.std.specs.Prelude.{◌≡◌, OnOk, IfOk, IfErr};
ghost use Rattle.snapshots.specs.Snapshots.{IsSnapshot, sum_in};
ghost use Rattle.snapshot_files.specs.Saving.{IsFileFault, IsPlaceFault, IsSaved, IsSaveFault, snapshot};

use crate::loading::{Loaded, read_snapshot};
use crate::saving::{Saved, write_snapshot};
use crate::{LoadFault, SaveFault};
use ends::{TrackedReader, TrackedWriter};
use std::alloc::{AllocError, Global};
use std::fs::{OpenFile, OpenOptions};
use std::io::ErrorKind;
use std::rt::Files;
use std::{fs, io};
use table::{Item, Key};

/// Saves a table: its rows, in the order of their items' numbers, each once, and how many updates it has taken. They
/// go to a new file, with `.new` behind the path, which takes the path once it is synced. On each fault but `NotKept`
/// what stood at the path stands there still, and of the new file nothing is left.
#[tactic(auto, using(crate::proofs::Saves::file_fault, crate::proofs::Saves::place_fault))]
pub fn save<R: Files + AllocGlobal>(
    rt: &R,
    path: &str,
    rows: &[(Key, Item)],
    count: u64,
) -> Result<Saved, SaveFault>
    ensures whole { OnOk result (IsSnapshot (snapshot rows.now count)) }
    ensures saved { IfOk result (λ saved. IsSaved saved (snapshot rows.now count)) }
    ensures told { IfErr result (λ fault. IsFileFault fault (snapshot rows.now count)) }
{
    may_replace(rt, path)?;
    let new_path = format!(in rt.alloc(); "{path}.new")?;
    let file = make_new(rt, new_path.as_str())?;
    let saved = match fill(rt.alloc(), file, rows, count) {
        Ok(saved) => saved,
        Err(fault) => {
            let _ = fs::remove_file(rt, new_path.as_str());
            return Err(fault);
        }
    };
    if let Err(e) = fs::rename(rt, new_path.as_str(), path) {
        let _ = fs::remove_file(rt, new_path.as_str());
        return Err(SaveFault::NotMoved(e));
    }
    match sync_folder(rt, path) {
        Ok(()) => Ok(saved),
        Err(e) => Err(SaveFault::NotKept(e)),
    }
}

// Refuses a path at which something that is no file stands. A link is none.
fn may_replace<R: Files>(rt: &R, path: &str) -> Result<(), SaveFault>
    ensures { IfErr result (λ fault. IsPlaceFault fault) }
{
    match fs::symlink_metadata(rt, path) {
        Ok(found) if found.is_file() => Ok(()),
        Ok(_) => Err(SaveFault::NotFile),
        Err(e) if e.kind() == ErrorKind::NotFound => Ok(()),
        Err(e) => Err(SaveFault::Unwritten(e)),
    }
}

// Makes a file where nothing stands.
fn make_new<R: Files>(rt: &R, path: &str) -> Result<R::File, SaveFault>
    ensures { IfErr result (λ fault. IsPlaceFault fault) }
{
    match OpenOptions::new()
        .write(true)
        .create_new(true)
        .open(rt, path)
    {
        Ok(file) => Ok(file),
        Err(e) if e.kind() == ErrorKind::AlreadyExists => Err(SaveFault::Taken),
        Err(e) => Err(SaveFault::Unwritten(e)),
    }
}

// Writes the snapshot into a new file, and syncs it.
fn fill<F: io::Write + OpenFile + Drop>(
    alloc: Global,
    file: F,
    rows: &[(Key, Item)],
    count: u64,
) -> Result<Saved, SaveFault>
    ensures whole { OnOk result (IsSnapshot (snapshot rows.now count)) }
    ensures saved { IfOk result (λ saved. IsSaved saved (snapshot rows.now count)) }
    ensures told { IfErr result (λ fault. IsSaveFault fault (snapshot rows.now count)) }
{
    let mut sink = TrackedWriter::new(file);
    let saved = write_snapshot(alloc, &mut sink, rows, count)?;
    match sink.inner.sync_all() {
        Ok(()) => Ok(saved),
        Err(e) => Err(SaveFault::Unwritten(e)),
    }
}

// Syncs the folder in which the path stands, so that the new name is kept.
fn sync_folder<R: Files>(rt: &R, path: &str) -> io::Result<()> {
    fs::open(rt, folder_of(path))?.sync_all()
}

// The folder in which a path stands.
fn folder_of(path: &str) -> &str {
    match path.rsplit_once('/') {
        Some(("", _)) => "/",
        Some((folder, _)) => folder,
        None => ".",
    }
}

/// Loads a table. All of the file is checked before any of it is given.
pub fn load<R: Files + AllocGlobal>(rt: &R, path: &str) -> Result<Loaded, LoadFault>
    ensures whole { IfOk result (λ loaded. IsSnapshot (snapshot loaded.rows.items loaded.mark.count)) }
    ensures sum { IfOk result (λ loaded. loaded.mark.sum ≡ sum_in (snapshot loaded.rows.items loaded.mark.count)) }
{
    match fs::open(rt, path) {
        Ok(file) => {
            let mut source = TrackedReader::new(file);
            read_snapshot(rt.alloc(), &mut source)
        }
        Err(e) => Err(LoadFault::Unreadable(e)),
    }
}
