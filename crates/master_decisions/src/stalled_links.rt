//! Which links between servers stand still, by whose word, and what a person is told of them: a machine that reads no
//! clock and sends nothing.
ghost use Rattle.std.specs.Prelude.{◌≡◌, ◌<◌, ◌-◌, ◌*◌, ℕ, IfNone, IfSome, nat_le, replicate, slice_set, true, false};
ghost use Rattle.master_decisions.specs.declared.presence.TheConstants.{BEATS};
ghost use Rattle.master_decisions.specs.ServerSets.{and_one};
ghost use Rattle.master_decisions.specs.StalledLinks.{
  answering,
  is_news,
  row_of,
  says,
  says_anew,
  telling,
};

use crate::presence::BEATS;
use crate::server_sets::{and_one, is_among, without};
use node::{SERVERS, View};

/// What servers say of their links. A server says it each time that it is asked how it is, behind its answer, if some of
/// its links stand still.
#[derive(Drop)]
pub struct StalledLinks {
    // To which servers the links of each one stand still, as it said last, by its id: server j is the bit of value 2^j.
    said: [u16; SERVERS as usize],
    // The same as a person was told.
    told: [u16; SERVERS as usize],
    // Those that said so since they answered for the last time.
    fresh: View,
    // When what they say changed for the last time: milliseconds since the master began.
    changed: u64,
}

/// What a person is told of a link.
#[derive(Clone, Copy)]
pub struct LinkNews {
    /// The server whose link it is, and whose word.
    pub from: u8,
    /// The server to which it goes.
    pub to: u8,
    /// Whether it stands still, or goes on.
    pub stands_still: bool,
}

impl StalledLinks {
    /// Before a server has said anything.
    pub fn new() -> StalledLinks
        ensures said { result.said ≡ replicate 16 0 }
        ensures told { result.told ≡ replicate 16 0 }
        ensures fresh { result.fresh ≡ 0 }
        ensures changed { result.changed ≡ 0 }
    {
        StalledLinks {
            said: [0; SERVERS as usize],
            told: [0; SERVERS as usize],
            fresh: View::empty(),
            changed: 0,
        }
    }

    /// Server `i` says that its links to these servers stand still, so many milliseconds after the master began.
    pub fn hear(&mut self, i: u8, servers: u16, now: u64)
        ensures { self.new ≡ record (says_anew self.old i servers now) { fresh = and_one self.old.fresh i } }
    {
        self.say(i, servers, now);
        self.fresh = and_one(self.fresh, i);
    }

    /// Server `i` has answered then. If it hasn't said since its answer before that links of it stand still, none does.
    pub fn answered(&mut self, i: u8, now: u64)
        ensures { self.new ≡ answering self.old i now }
    {
        if is_among(self.fresh, i) {
            self.fresh = without(self.fresh, i);
        } else {
            self.say(i, 0, now);
        }
    }

    // Server i says that its links to these stand still.
    fn say(&mut self, i: u8, servers: u16, now: u64)
        ensures { self.new ≡ says_anew self.old i servers now }
    {
        if row_of(&self.said, i) != servers {
            self.changed = now;
        }
        put_row(&mut self.said, i, servers);
    }

    /// Whether server `i` says that its link to server `j` stands still.
    pub fn says(&self, i: u8, j: u8) -> bool
        ensures { result ≡ says self.now.said i j }
    {
        is_among(View::from_bits(row_of(&self.said, i)), j)
    }

    // Whether a person was told so.
    fn is_told(&self, i: u8, j: u8) -> bool
        ensures { result ≡ says self.now.told i j }
    {
        is_among(View::from_bits(row_of(&self.told, i)), j)
    }

    /// Whether what they say has stood for some beats of so many milliseconds. Several links that stand still for one
    /// cause are told by several servers, one after another.
    pub fn is_settled(&self, now: u64, beat: u32) -> bool
        ensures { result ≡ nat_le (beat * BEATS) (now - self.now.changed) }
    {
        u64::from(beat) * BEATS <= now.saturating_sub(self.changed)
    }

    /// The next link between two of these servers, which live, of which something is to be told: that it stands still,
    /// or that it goes on after that was told. It counts as told then.
    pub fn next(&mut self, living: View) -> Option<LinkNews>
        ensures news { IfSome result (λ news. is_news self.old living news.from news.to ≡ true) }
        ensures still { IfSome result (λ news. news.stands_still ≡ says self.old.said news.from news.to) }
        ensures noted { IfSome result (λ news.
            self.new ≡ telling self.old news.from news.to news.stands_still) }
        ensures none { IfNone result ((i j : ℕ) → i < 16 → j < 16 → is_news self.old living i j ≡ false) }
        ensures kept { IfNone result (self.new ≡ self.old) }
    {
        let (from, to) = self.first_news(living)?;
        let stands_still = self.says(from, to);
        self.tell(from, to, stands_still);
        Some(LinkNews {
            from,
            to,
            stands_still,
        })
    }

    // A person is told that the link of server i to server j stands still, or that it goes on.
    fn tell(&mut self, i: u8, j: u8, stands_still: bool)
        ensures { self.new ≡ telling self.old i j stands_still }
    {
        let told = View::from_bits(row_of(&self.told, i));
        let now_told = if stands_still {
            and_one(told, j)
        } else {
            without(told, j)
        };
        put_row(&mut self.told, i, now_told.bits());
    }

    // The first link of which something is to be told.
    fn first_news(&self, living: View) -> Option<(u8, u8)>
        ensures news { IfSome result (λ link. is_news self.now living link.0 link.1 ≡ true) }
        ensures none { IfNone result ((i j : ℕ) → i < 16 → j < 16 → is_news self.now living i j ≡ false) }
    {
        for i in 0..SERVERS {
            if let Some(j) = self.first_news_of(living, i) {
                return Some((i, j));
            }
        }
        None
    }

    // The first such link of server i, by the server to which it goes.
    fn first_news_of(&self, living: View, i: u8) -> Option<u8>
        ensures news { IfSome result (λ j. is_news self.now living i j ≡ true) }
        ensures none { IfNone result ((j : ℕ) → j < 16 → is_news self.now living i j ≡ false) }
    {
        for j in 0..SERVERS {
            if self.is_news(living, i, j) {
                return Some(j);
            }
        }
        None
    }

    // Whether something is to be told of the link of server i to server j.
    fn is_news(&self, living: View, i: u8, j: u8) -> bool
        ensures { result ≡ is_news self.now living i j }
    {
        i != j
            && is_among(living, i)
            && is_among(living, j)
            && self.says(i, j) != self.is_told(i, j)
    }
}

// What stands at the place of server i.
fn row_of(rows: &[u16], i: u8) -> u16
    ensures { result ≡ row_of rows.now i }
{
    let i = usize::from(i);
    if i < rows.len() { rows[i] } else { 0 }
}

// This stands there from now on.
fn put_row(rows: &mut [u16], i: u8, row: u16)
    ensures { rows.new ≡ slice_set rows.old i row }
{
    let i = usize::from(i);
    if i < rows.len() {
        rows[i] = row;
    }
}
