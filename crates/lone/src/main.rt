//! The program `lone`: sets or gets, pipelined, through one session over a plain table. `bench/requests` times it.
#![tactic(auto)]

mod loads;
mod rounds;

use loads::{Kind, Load};
use rounds::serve;
use std::env;
use std::process::ExitCode;
use std::rt::Env;

fn main(rt: HostRuntime) -> ExitCode {
    let Some(load) = asked(&rt) else {
        let _ = eprintln!(rt;
            "usage: lone sets|gets BYTES ROUNDS: rounds of 64 requests with values of BYTES bytes"
        );
        return ExitCode::from(2);
    };
    match serve(rt.alloc(), &load) {
        Ok(written) => {
            let _ = println!(rt; "{written} bytes");
            ExitCode::SUCCESS
        }
        Err(fault) => {
            let _ = eprintln!(rt; "lone: {fault}");
            ExitCode::FAILURE
        }
    }
}

// The load that the program's arguments name.
fn asked<R: Env + AllocGlobal>(rt: &R) -> Option<Load> {
    let mut words = env::args(rt).ok()?;
    words.next()?;
    let kind = kind_of(words.next()?.as_str())?;
    let size = number_of(words.next()?.as_str())?;
    let rounds = number_of(words.next()?.as_str())?;
    Some(Load { kind, size, rounds })
}

fn kind_of(word: &str) -> Option<Kind> {
    match word {
        "gets" => Some(Kind::Gets),
        "sets" => Some(Kind::Sets),
        _ => None,
    }
}

fn number_of(word: &str) -> Option<u32> {
    word.parse::<u32>().ok()
}
