//! A serving thread: it waits for its sockets, serves what is ready, takes turns, and hands on the replies.
ghost use Rattle.std.specs.Prelude.{◌≡◌, ◌%◌, [], true, false};
ghost use Rattle.mio.specs.Events.{items};
ghost use Rattle.in_process_links.specs.ServerSets.{has_server};

use crate::clients::Ready;
use crate::connection_tables::{ConnectionTable, ConnectionTableParts, SERVERS};
use crate::guests::Guests;
use crate::loop_handles::{LoopHandles, OpenAt, WAKE};
use crate::turn_schedulers::TurnScheduler;
use crossbeam_utils::Backoff;
use in_process_links::ServerSet;
use mio::{Events, Poll, Token};
use std::alloc::{AllocError, Global};
use std::sync::{Arc, Wait};
use std::time::{Clock, Duration};

/// The token of the guest of place 0, 2^40. No client has a token as high.
const FIRST_GUEST: usize = 1_099_511_627_776;

/// The server to which guests bring.
const HOST: u8 = 0;

/// The most bytes of one read.
const PIECE: usize = 65_536;

/// The most events of one wait.
const EVENTS: usize = 256;

/// How often a thread takes turns and replies before it looks at its sockets again.
const ROUNDS: usize = 16;

/// The most turns of one visit where calls are answered soon. After it the thread goes on with the next server and with
/// its own replies, and others take turns here: with more, those who wait for a reply all wait for the last turn.
const FEW_TURNS: usize = 8;

/// The most turns of one visit where they aren't: what a visit puts into the links goes out in one write.
const MANY_TURNS: usize = 64;

/// How often a thread looks for a reply, after pauses that grow, before it looks at its sockets.
const FIRST_LOOKS: usize = 7;

/// How often it looks after that before it sleeps, each time after it let others have its processor.
const LOOKS: usize = 33;

/// How long a thread waits at most while output waits for a lease, in milliseconds. Nobody wakes it for that.
const HELD: u64 = 10;

/// What a serving thread begins with. Unlike the thread's own state it may be sent to another thread.
#[derive(Drop)]
pub(crate) struct ThreadParts<R: Wait + Drop, T: TurnScheduler + Drop, G: Guests + Drop> {
    rt: R,
    alloc: Global,
    me: usize,
    turn_scheduler: Arc<T, Global>,
    loop_handles: Arc<LoopHandles, Global>,
    poll: Poll,
    events: Events,
    // By the servers' ids.
    table_parts: Vec<ConnectionTableParts>,
    // None but for the first thread.
    guests: Option<G>,
    piece: Vec<u8>,
}

/// A serving thread.
#[derive(Drop)]
pub(crate) struct IoThread<R: Wait + Drop, T: TurnScheduler + Drop, G: Guests + Drop> {
    rt: R,
    me: usize,
    turn_scheduler: Arc<T, Global>,
    loop_handles: Arc<LoopHandles, Global>,
    poll: Poll,
    events: Events,
    // By the servers' ids. None if memory was out as it began.
    connection_tables: Vec<ConnectionTable>,
    // None but for the first thread.
    guests: Option<G>,
    // Where all reads go.
    piece: Vec<u8>,
    // The servers that it is to visit, and the one that it visited last.
    due: ServerSet,
    last: u8,
    // What was seen when it looked ahead. Nobody asks for it.
    seen: usize,
}

impl<R: Wait + Copy + Drop, T: TurnScheduler + Drop, G: Guests + Drop> ThreadParts<R, T, G> {
    /// Of a thread with this loop handle, which waits here. Refused only if memory is out.
    pub(crate) fn new(
        rt: R,
        alloc: Global,
        me: usize,
        turn_scheduler: Arc<T, Global>,
        loop_handles: Arc<LoopHandles, Global>,
        poll: Poll,
        table_parts: Vec<ConnectionTableParts>,
        guests: Option<G>,
    ) -> Result<ThreadParts<R, T, G>, AllocError> {
        Ok(ThreadParts {
            rt,
            alloc,
            me,
            turn_scheduler,
            loop_handles,
            poll,
            events: Events::with_capacity(alloc, EVENTS)?,
            table_parts,
            guests,
            piece: Vec::from_elem(alloc, 0u8, PIECE)?,
        })
    }

    /// The thread itself. If memory is out for its connection tables, it has none, and closes what is handed to it.
    pub(crate) fn begin(self) -> IoThread<R, T, G> {
        let ThreadParts {
            rt,
            alloc,
            me,
            turn_scheduler,
            loop_handles,
            poll,
            events,
            table_parts,
            guests,
            piece,
        } = self;
        let connection_tables = match ConnectionTable::open_all(alloc, table_parts) {
            Ok(connection_tables) => connection_tables,
            Err(_) => Vec::new(alloc),
        };
        IoThread {
            rt,
            me,
            turn_scheduler,
            loop_handles,
            poll,
            events,
            connection_tables,
            guests,
            piece,
            due: ServerSet::new(),
            last: 0,
            seen: 0,
        }
    }
}

impl<R: Wait + Clock + Copy + Drop, T: TurnScheduler + Drop, G: Guests + Drop> IoThread<R, T, G> {
    /// Serves until no more connections come and all are closed.
    pub(crate) fn run(&mut self) {
        let rt = self.rt;
        for _ in rt.forever() {
            self.wait();
            self.take_events();
            self.serve_guests();
            self.serve();
            self.turns_and_replies();
            if self.is_done() {
                self.turn_scheduler.leave(self.due);
                return;
            }
        }
        unreachable!()
    }

    // Waits for what is ready. With something to do it only looks.
    fn wait(&mut self) {
        if self.due != ServerSet::new()
            || self.has_busy_guests()
            || self
                .connection_tables
                .iter()
                .any(|connection_table| connection_table.is_busy())
        {
            self.look();
            return;
        }
        let open_at = self.open_at();
        if open_at == OpenAt::nowhere() {
            self.sleep();
            return;
        }
        if self.turn_scheduler.answers_soon() && self.has_reply_soon() {
            return;
        }
        self.loop_handles.sleeps_at(self.me, open_at);
        self.due.merge(self.turn_scheduler.all_due());
        if self.turns_or_replies() || self.due != ServerSet::new() {
            self.loop_handles.is_awake(self.me);
            self.look();
            return;
        }
        self.sleep();
        self.loop_handles.is_awake(self.me);
    }

    // Looks for turns and replies again and again, for some ten microseconds. A thread that is at the worker answers a
    // call in less time than it takes to fall asleep and to be woken. After the first looks, which take least, it looks
    // at its sockets too. Whether there were any.
    fn has_reply_soon(&mut self) -> bool {
        let backoff = Backoff::new();
        if self.has_reply_within(&backoff, FIRST_LOOKS) {
            return true;
        }
        self.look();
        !self.events.is_empty() || self.has_reply_within(&backoff, LOOKS)
    }

    // Looks that often for turns and replies. Whether there were any.
    fn has_reply_within(&mut self, backoff: &Backoff, looks: usize) -> bool {
        for _ in 0..looks {
            backoff.snooze();
            if self.turns_or_replies() || self.due != ServerSet::new() {
                return true;
            }
        }
        false
    }

    // Waits for what is ready, not for long if output waits for a lease.
    fn sleep(&mut self) {
        let limit = if self
            .connection_tables
            .iter()
            .any(|connection_table| connection_table.holds_output())
        {
            Some(Duration::from_millis(HELD))
        } else {
            None
        };
        let _ = self.poll.poll(&mut self.events, limit);
    }

    // Takes what is ready, and doesn't wait.
    fn look(&mut self) {
        let _ = self.poll.poll(&mut self.events, Some(Duration::ZERO));
    }

    // The servers whose replies it waits for.
    fn open_at(&self) -> OpenAt {
        let mut open_at = OpenAt::nowhere();
        for connection_table in self.connection_tables.iter() {
            if connection_table.awaits_reply() {
                open_at.add(connection_table.id());
            }
        }
        open_at
    }

    // Looks at each client whose socket is ready, before the first of them goes on. With many clients each has left the
    // processor's near memory by its next request, and comes back while others are looked at.
    fn look_ahead(&mut self) {
        let mut seen = 0usize;
        for event in self.events.iter() {
            let Token(token) = event.token();
            if let Some(connection_table) = self.connection_tables.get(token % SERVERS) {
                seen = seen.wrapping_add(connection_table.look_at(token / SERVERS));
            }
        }
        self.seen = seen;
    }

    // Has each client go on whose socket is ready, notes the guests whose socket is, and takes new ones in. No event is
    // left: a second pass would find a new client under the key of one that was closed, and take that one's end for its
    // own.
    fn take_events(&mut self)
        ensures handled { items self.new.events ≡ [] }
    {
        self.look_ahead();
        let mut is_woken = false;
        for event in self.events.iter() {
            let Token(token) = event.token();
            if token == WAKE {
                is_woken = true;
            } else if token >= FIRST_GUEST {
                note_guest(&mut self.guests, token.wrapping_sub(FIRST_GUEST));
            } else if let Some(connection_table) = self.connection_tables.get_mut(token % SERVERS) {
                let ready = Ready {
                    reading: event.is_readable(),
                    writing: event.is_writable(),
                    ended: event.is_read_closed(),
                    gone: event.is_error() || event.is_write_closed(),
                };
                let key = token / SERVERS;
                connection_table.take_event(&self.rt, key, ready, self.piece.as_mut_slice());
            }
        }
        if is_woken {
            self.take_arrivals();
        }
        self.events.clear();
    }

    // Takes in the guests that have come, and the connections that were handed to this thread.
    fn take_arrivals(&mut self) {
        if let Some(guests) = &mut self.guests {
            guests.take_in(self.poll.registry(), FIRST_GUEST);
        }
        let Some(arrivals) = self.loop_handles.arrivals(self.me) else {
            return;
        };
        let registry = self.poll.registry();
        for arrival in arrivals {
            match self.connection_tables.get_mut(usize::from(arrival.server)) {
                Some(connection_table) => connection_table.admit(registry, arrival),
                None => drop(arrival),
            }
        }
    }

    // Reads guests, for a while. If they may have brought something, a turn is due.
    fn serve_guests(&mut self) {
        if let Some(guests) = &mut self.guests {
            if guests.serve(&self.rt, self.piece.as_mut_slice()) {
                expect_turn(&*self.turn_scheduler, &mut self.due, HOST);
            }
        }
    }

    // Whether guests may have more to read.
    fn has_busy_guests(&self) -> bool {
        match &self.guests {
            Some(guests) => guests.is_busy(),
            None => false,
        }
    }

    // Has each client that may take steps take some. Clients of a server that is marked are closed.
    fn serve(&mut self) {
        for connection_table in self.connection_tables.iter_mut() {
            connection_table.check_stopped();
            connection_table.serve_ready(&self.rt, self.piece.as_mut_slice());
        }
        self.note_sent();
    }

    // A turn is due at each server to which calls were sent.
    fn note_sent(&mut self) {
        for connection_table in self.connection_tables.iter_mut() {
            if connection_table.take_sent() {
                expect_turn(&*self.turn_scheduler, &mut self.due, connection_table.id());
            }
        }
    }

    // Takes turns and replies as long as there are any, for a while.
    fn turns_and_replies(&mut self) {
        for _ in 0..ROUNDS {
            if !self.turns_or_replies() {
                return;
            }
        }
    }

    // Takes turns that are due, and replies. Whether there were any.
    fn turns_or_replies(&mut self) -> bool {
        let turns = self.take_turns();
        let replies = self.collect();
        turns || replies
    }

    // Visits each server that is due once, and wakes those who wait for the replies. Whether a turn was taken.
    fn take_turns(&mut self) -> bool {
        let most = turns_of_visit(self.turn_scheduler.answers_soon());
        let mut any = false;
        for _ in 0..SERVERS {
            let Some(at) = self.due.take_after(self.last) else {
                return any;
            };
            self.last = at;
            let visit = self.turn_scheduler.take_turns(at, most);
            self.due.merge(visit.due);
            if !visit.replied.is_empty() {
                self.loop_handles.wake_others(self.me, at, visit.replied);
            }
            any |= visit.turns != 0;
        }
        any
    }

    // Takes the replies that stand at its seats. Whether there were any.
    fn collect(&mut self) -> bool {
        let mut any = false;
        for connection_table in self.connection_tables.iter_mut() {
            any |= connection_table.collect(&self.rt, self.piece.as_mut_slice());
        }
        self.note_sent();
        any
    }

    // Whether no more connections come, and all are closed.
    fn is_done(&mut self) -> bool {
        if !self.loop_handles.has_finished() {
            return false;
        }
        self.take_arrivals();
        self.connection_tables
            .iter()
            .all(|connection_table| connection_table.is_empty())
    }
}

// The most turns of one visit, by whether calls are answered soon there.
fn turns_of_visit(answers_soon: bool) -> usize
    ensures soon { answers_soon ≡ true → result ≡ 8 }
    ensures later { answers_soon ≡ false → result ≡ 64 }
{
    if answers_soon { FEW_TURNS } else { MANY_TURNS }
}

// The socket of the guest of this place is ready.
fn note_guest<G: Guests>(guests: &mut Option<G>, place: usize) {
    if let Some(guests) = guests {
        guests.note_ready(place);
    }
}

// Something was put into this server's inbox: a turn is due there.
fn expect_turn<T: TurnScheduler>(turn_scheduler: &T, due: &mut ServerSet, id: u8)
    ensures { has_server due.new (id % 32) ≡ true }
{
    turn_scheduler.expect(id);
    due.add(id);
}
