//! The program `frames`: frames between servers, written, read in pieces, or copied as bytes. `bench/frames` times it.
#![tactic(auto)]

mod loads;
mod rounds;

use loads::{Load, Work};
use rounds::run;
use std::env;
use std::process::ExitCode;
use std::rt::Env;

fn main(rt: HostRuntime) -> ExitCode {
    let Some(load) = asked(&rt) else {
        let _ = eprintln!(rt;
            "usage: frames write|read|copy BYTES ROUNDS PIECE: rounds of 64 frames with BYTES bytes of data, read in pieces of PIECE"
        );
        return ExitCode::from(2);
    };
    match run(rt.alloc(), &load) {
        Ok(done) => {
            let _ = println!(rt; "{} bytes, {} frames", done.bytes, done.frames);
            ExitCode::SUCCESS
        }
        Err(fault) => {
            let _ = eprintln!(rt; "frames: {fault}");
            ExitCode::FAILURE
        }
    }
}

// The load that the program's arguments name.
fn asked<R: Env + AllocGlobal>(rt: &R) -> Option<Load> {
    let mut words = env::args(rt).ok()?;
    words.next()?;
    let work = match words.next()?.as_str() {
        "write" => Work::Write,
        "read" => Work::Read,
        "copy" => Work::Copy,
        _ => return None,
    };
    let size = words.next()?.as_str().parse::<u32>().ok()?;
    let rounds = words.next()?.as_str().parse::<u32>().ok()?;
    let piece = words.next()?.as_str().parse::<u32>().ok()?;
    Some(Load {
        work,
        size,
        rounds,
        piece,
    })
}
