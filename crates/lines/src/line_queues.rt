//! Lines that wait for the thread that writes them.
ghost use Rattle.std.specs.Prelude.{◌≡◌, ◌<◌, ◌≤◌, ◌+◌, ◌^◌, ◌++◌, ◌∷◌, [], length, None, IfSome, IfOk};
ghost use Rattle.std.specs.Prelude.{option_to_list, IsSome, true, false};
ghost use Rattle.std.specs.VecDeque.{deque_capacity};
ghost use Rattle.lines.specs.declared.line_queues.WaitingLine.{WaitingLine};

use std::alloc::{AllocError, Global};
use std::collections::VecDeque;

/// How many lines may wait.
pub const MOST: usize = 256;

/// How many lines have room beforehand, so that they can be told when memory is out; and the bytes of each.
const SPARES: usize = 16;

const ROOM: usize = 256;

/// The most bytes of a line whose room is used again.
const KEPT: usize = 4096;

/// A line that waits, and how many were dropped before it.
#[derive(Drop)]
pub struct WaitingLine {
    /// How many lines were dropped since the one before.
    pub dropped: u64,
    /// The line, with its end; without a byte if nothing but the count waits.
    pub line: Vec<u8>,
}

/// The lines that wait, in the order in which they were told. At most 256 do: what comes beyond them is dropped, and
/// counted. It takes its memory when it is made, and none later, and has room for 16 lines too.
#[derive(Drop)]
pub struct LineQueue {
    alloc: Global,
    /// The lines, the oldest first.
    pub waiting: VecDeque<WaitingLine>,
    /// How many lines were dropped since the last of them.
    pub dropped: u64,
    /// Whether a line was taken that may not have been written yet.
    pub is_writing: bool,
    // Room for lines.
    spares: Vec<Vec<u8>>,
    ghost room: { 256 ≤ deque_capacity waiting },
}

impl LineQueue {
    /// No line. Refused only when out of memory.
    pub fn new(alloc: Global) -> Result<LineQueue, AllocError>
        ensures waiting { IfOk result (λ queue. queue.waiting.items ≡ []) }
        ensures dropped { IfOk result (λ queue. queue.dropped ≡ 0) }
    {
        let waiting = VecDeque::with_capacity(alloc, MOST)?;
        let spares = all_spares(alloc)?;
        Ok(LineQueue {
            alloc,
            waiting,
            dropped: 0,
            is_writing: false,
            spares,
        })
    }

    /// Room for a line: some that was taken beforehand, if it isn't all in use.
    pub fn room(&mut self) -> Vec<u8>
        ensures empty { result.items ≡ [] }
        ensures waiting { self.new.waiting ≡ self.old.waiting }
        ensures dropped { self.new.dropped ≡ self.old.dropped }
    {
        match self.spares.pop() {
            Some(mut room) => {
                room.clear();
                room
            }
            None => Vec::new(self.alloc),
        }
    }

    /// A line was written, and its room is free.
    pub fn give_back(&mut self, line: Vec<u8>)
        ensures waiting { self.new.waiting ≡ self.old.waiting }
        ensures dropped { self.new.dropped ≡ self.old.dropped }
    {
        let is_fit = ROOM <= line.capacity() && line.capacity() <= KEPT;
        if is_fit && self.spares.len() < SPARES {
            drop(self.spares.push(line));
        } else {
            drop(line);
        }
    }

    /// A line was told. It waits behind the others, with the count of those that were dropped before it. If 256 wait it
    /// is dropped, and counted.
    pub fn put(&mut self, line: Vec<u8>)
        ensures waits { length self.old.waiting.items < 256 → self.new.waiting.items ≡ self.old.waiting.items
            ++ record { dropped = self.old.dropped; line = line } ∷ [] }
        ensures told { length self.old.waiting.items < 256 → self.new.dropped ≡ 0 }
        ensures full { 256 ≤ length self.old.waiting.items → self.new.waiting.items ≡ self.old.waiting.items }
        ensures counted { 256 ≤ length self.old.waiting.items → self.old.dropped + 1 < 2 ^ 64 →
            self.new.dropped ≡ self.old.dropped + 1 }
    {
        if self.waiting.len() < MOST {
            let dropped = self.dropped;
            self.dropped = 0;
            self.waiting
                .push_back_reserved(WaitingLine { dropped, line });
        } else {
            drop(line);
            self.lose();
        }
    }

    /// A line was told for which there was no memory. It is dropped, and counted.
    pub fn lose(&mut self)
        ensures waiting { self.new.waiting ≡ self.old.waiting }
        ensures counted { self.old.dropped + 1 < 2 ^ 64 → self.new.dropped ≡ self.old.dropped + 1 }
    {
        self.dropped = self.dropped.saturating_add(1);
    }

    /// The oldest line, which is written from now on; if there is none, the count of those that were dropped, if some
    /// were.
    pub fn take(&mut self) -> Option<WaitingLine>
        ensures first { 0 < length self.old.waiting.items →
            self.old.waiting.items ≡ option_to_list result ++ self.new.waiting.items }
        ensures later { 0 < length self.old.waiting.items → self.new.dropped ≡ self.old.dropped }
        ensures told { self.old.waiting.items ≡ [] → self.new.dropped ≡ 0 }
        ensures count { self.old.waiting.items ≡ [] → IfSome result (λ taken. taken.dropped ≡ self.old.dropped) }
        ensures alone { self.old.waiting.items ≡ [] → IfSome result (λ taken. taken.line.items ≡ []) }
        ensures empty { self.old.waiting.items ≡ [] → self.new.waiting.items ≡ [] }
        ensures none { result ≡ None → (self.old.waiting.items ≡ []) × (self.old.dropped ≡ 0) }
        ensures writing { IsSome result → self.new.is_writing ≡ true }
        ensures written { result ≡ None → self.new.is_writing ≡ false }
    {
        match self.waiting.pop_front() {
            Some(taken) => {
                self.is_writing = true;
                Some(taken)
            }
            None => self.take_count(),
        }
    }

    // The count of the lines that were dropped, if some were and no other line waits.
    fn take_count(&mut self) -> Option<WaitingLine>
        ensures waiting { self.new.waiting ≡ self.old.waiting }
        ensures told { self.new.dropped ≡ 0 }
        ensures count { IfSome result (λ taken. taken.dropped ≡ self.old.dropped) }
        ensures alone { IfSome result (λ taken. taken.line.items ≡ []) }
        ensures none { result ≡ None → self.old.dropped ≡ 0 }
        ensures writing { IsSome result → self.new.is_writing ≡ true }
        ensures written { result ≡ None → self.new.is_writing ≡ false }
    {
        if self.dropped == 0 {
            self.is_writing = false;
            return None;
        }
        let dropped = self.dropped;
        self.dropped = 0;
        self.is_writing = true;
        let line = Vec::new(self.alloc);
        Some(WaitingLine { dropped, line })
    }

    /// Whether each line that was told was written or counted.
    pub fn is_idle(&self) -> bool
        ensures waiting { result ≡ true → self.now.waiting.items ≡ [] }
        ensures dropped { result ≡ true → self.now.dropped ≡ 0 }
        ensures writing { result ≡ true → self.now.is_writing ≡ false }
    {
        self.waiting.is_empty() && self.dropped == 0 && !self.is_writing
    }
}

fn all_spares(alloc: Global) -> Result<Vec<Vec<u8>>, AllocError> {
    let mut spares = Vec::with_capacity(alloc, SPARES)?;
    for _ in 0..SPARES {
        spares.push(Vec::with_capacity(alloc, ROOM)?)?;
    }
    Ok(spares)
}
