//! How much memory this machine has.

use std::fs;
use std::io::Read;
use std::rt::Files;

/// The memory of this machine in MiB, by the first line of the system's file /proc/meminfo. None if it can't be read.
pub fn machine_memory<R: Files>(rt: &R) -> Option<u64> {
    let mut file = fs::open(rt, "/proc/meminfo").ok()?;
    let mut beginning = [0u8; 64];
    let count = file.read(beginning.as_mut_slice()).ok()?;
    mebibytes(beginning.get(..count)?)
}

// The MiB of a line `MemTotal: N kB`.
fn mebibytes(line: &[u8]) -> Option<u64> {
    let mut kibibytes = 0u64;
    for byte in line.strip_prefix(b"MemTotal:")? {
        match *byte {
            b'0'..=b'9' => {
                let digit = u64::from(*byte) - u64::from(b'0');
                kibibytes = kibibytes.checked_mul(10)?.checked_add(digit)?;
            }
            b' ' if kibibytes == 0 => {}
            b' ' => return Some(kibibytes / 1024),
            _ => return None,
        }
    }
    None
}
