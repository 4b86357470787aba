//! The thread that reads the lines of the input of a master that watches.
ghost use Rattle.masters.specs.Lines.{Names};

use crate::news::NewsSender;
use crate::platforms::Platform;
use crossbeam_channel::{Receiver, Sender, bounded};
use ends::{Source, TrackedReader};
use lines::{empty_line, next_line, server_named};
use master_decisions::{MasterFault, News};
use std::alloc::{AllocError, Global};
use std::io::Stdin;
use std::thread;

// What the thread has.
#[derive(Drop)]
struct Reading {
    servers: u8,
    // Room for a line.
    line: Vec<u8>,
    // What lines name goes there.
    news_sender: NewsSender,
    // It comes from there that a line was answered.
    answered: Receiver<()>,
}

/// Starts the thread. It reads the next line once it is put there that the one before was answered. Fails only if memory
/// or threads run out.
pub(crate) fn start_reading<R: Platform>(
    rt: R,
    alloc: Global,
    servers: u8,
    input: Stdin,
    news_sender: NewsSender,
) -> Result<Sender<()>, AllocError> {
    let line = empty_line(alloc)?;
    let (answers, answered) = bounded(alloc, 1)?;
    let reading = Reading {
        servers,
        line,
        news_sender,
        answered,
    };
    match thread::spawn(&rt, move || read_lines(&rt, input, reading)) {
        Ok(thread) => {
            drop(thread);
            Ok(answers)
        }
        Err(refused) => {
            drop(refused);
            Err(AllocError)
        }
    }
}

// Puts what each line of the input names, until it ends.
fn read_lines<R: Platform>(rt: &R, input: Stdin, reading: Reading) {
    let mut input = TrackedReader::new(input);
    let mut reading = reading;
    for _ in rt.forever() {
        if !reading.go_on(rt, &mut input) {
            return;
        }
    }
    unreachable!()
}

impl Reading {
    // Puts what the next line names, and waits for its answer. It tells whether there was one.
    fn go_on<R: Platform, S: Source>(&mut self, rt: &R, input: &mut S) -> bool {
        match next_line(input, &mut self.line) {
            Ok(true) => {
                let news = named_by(self.line.as_slice(), self.servers);
                self.news_sender.put(rt, news);
                self.answered.recv(rt).is_ok()
            }
            Ok(false) => false,
            Err(AllocError) => {
                self.news_sender.put(rt, News::Fault(MasterFault::Memory));
                false
            }
        }
    }
}

/// What a line names: `gone J` the server J, if the chain has it, and any other line nothing.
pub(crate) fn named_by(line: &[u8], servers: u8) -> News
    ensures { Names line.now servers result }
{
    match server_named(line, b"gone", servers) {
        Some(j) => News::Typed(j),
        None => News::BadLine,
    }
}
