//! Where a running program puts its lines, and the thread that writes them.
ghost use Rattle.std.specs.Prelude.{◌≡◌, [], string_bytes};

use crate::line_queues::{LineQueue, WaitingLine};
use crate::unfinished_lines::UnfinishedLine;
use crate::written_lines::write_line;
use ends::TrackedWriter;
use std::alloc::{AllocError, Global};
use std::fmt::Display;
use std::io::Write;
use std::sync::{Arc, Mutex, Wait};
use std::thread;
use std::thread::{Parker, Threads};
use std::time::{Clock, Duration};

/// How often one looks at most, with a pause of a millisecond after each look, until all lines are written.
const LOOKS: u32 = 500;

/// What those who tell lines and the thread that writes them share. The lock is held for a step of the queue alone, and
/// never while a line is written.
#[derive(Drop)]
struct SharedLines {
    queue: Mutex<LineQueue>,
    // Where the thread that writes sleeps.
    parker: Parker,
}

/// Where lines are put. Who puts one doesn't wait until it is written: if 256 wait it is dropped, and counted.
#[derive(Drop)]
pub struct LineSender {
    alloc: Global,
    shared_lines: Arc<SharedLines, Global>,
}

/// Starts the thread that writes lines to this output, one write for each, and gives where to put them. If the output
/// blocks, that thread alone waits; the process may end meanwhile. Refused only if memory or threads run out.
pub fn open_lines<
    R: Wait + Threads + Copy + Drop + Send + 'static,
    W: Write + Drop + Send + 'static,
>(rt: R, alloc: Global, output: W) -> Result<LineSender, AllocError> {
    let shared_lines = Arc::new(
        alloc,
        SharedLines {
            queue: Mutex::new(LineQueue::new(alloc)?),
            parker: Parker::new(),
        },
    )?;
    let theirs = Arc::try_clone(&shared_lines)?;
    match thread::spawn(&rt, move || theirs.write_all(&rt, output)) {
        Ok(thread) => {
            drop(thread);
            Ok(LineSender {
                alloc,
                shared_lines,
            })
        }
        Err(refused) => {
            drop(refused);
            Err(AllocError)
        }
    }
}

impl LineSender {
    /// The same, for another thread. Refused only when out of memory.
    pub fn share(&self) -> Result<LineSender, AllocError> {
        let shared_lines = Arc::try_clone(&self.shared_lines)?;
        Ok(LineSender {
            alloc: self.alloc,
            shared_lines,
        })
    }

    /// Tells a line, and adds its end. As long as few lines wait it needs no memory, if the line has 256 bytes or less.
    /// One for which memory was refused is dropped, and counted.
    pub fn tell<R: Wait, D: Display + Drop>(&self, rt: &R, line: D) {
        let mut room = self.room(rt);
        match room.writeln(line) {
            Ok(()) => self.put(rt, Ok(room.into_bytes())),
            Err(AllocError) => {
                drop(room);
                self.put(rt, Err(AllocError));
            }
        }
    }

    // Room for a line.
    fn room<R: Wait>(&self, rt: &R) -> String
        ensures { string_bytes result ≡ [] }
    {
        match String::from_utf8(self.shared_lines.room(rt)) {
            Ok(room) => room,
            Err(refused) => {
                drop(refused);
                String::new(self.alloc)
            }
        }
    }

    // A line of which nothing has come.
    pub(crate) fn begin<R: Wait>(&self, rt: &R) -> UnfinishedLine {
        UnfinishedLine::new(self.alloc, self.shared_lines.room(rt))
    }

    // Puts a line's bytes into the queue, or counts one for which memory was refused.
    pub(crate) fn put<R: Wait>(&self, rt: &R, line: Result<Vec<u8>, AllocError>) {
        let mut queue = self.shared_lines.queue.lock(rt);
        match line {
            Ok(line) => queue.put(line),
            Err(AllocError) => queue.lose(),
        }
        drop(queue);
        self.shared_lines.parker.unpark();
    }

    /// Waits until all lines that were told are written, but for 500 pauses of a millisecond at most. It is for the
    /// start and the end of a program, when nothing else waits for the one who waits here. It counts pauses and reads
    /// no clock: if the machine stands still meanwhile, the thread that writes has its time all the same.
    pub fn settle<R: Wait + Clock>(&self, rt: &R) {
        for _ in 0..LOOKS {
            if self.shared_lines.is_idle(rt) {
                return;
            }
            thread::sleep(rt, Duration::from_millis(1));
        }
    }
}

impl SharedLines {
    fn is_idle<R: Wait>(&self, rt: &R) -> bool {
        let queue = self.queue.lock(rt);
        queue.is_idle()
    }

    // Writes one line after another. One that can't be written is lost.
    fn write_all<R: Wait, W: Write + Drop>(&self, rt: &R, output: W) {
        let mut sink = TrackedWriter::new(output);
        for _ in rt.forever() {
            match self.take(rt) {
                Some(waiting) => {
                    let _ = write_line(&mut sink, &waiting);
                    self.give_back(rt, waiting.line);
                }
                None => self.parker.park(rt),
            }
        }
        unreachable!()
    }

    fn room<R: Wait>(&self, rt: &R) -> Vec<u8>
        ensures { result.items ≡ [] }
    {
        let mut queue = self.queue.lock(rt);
        queue.room()
    }

    fn give_back<R: Wait>(&self, rt: &R, line: Vec<u8>) {
        let mut queue = self.queue.lock(rt);
        queue.give_back(line);
    }

    fn take<R: Wait>(&self, rt: &R) -> Option<WaitingLine> {
        let mut queue = self.queue.lock(rt);
        queue.take()
    }
}
