//! When a link's connection is given up, and when a link that stands still is told of.
ghost use Rattle.std.specs.Prelude.{◌≡◌};

use std::marker::Model;

/// What is due for a link.
#[derive(Clone, Copy, Debug, PartialEq, Eq)]
pub enum LinkDue {
    /// Nothing.
    Nothing,
    /// Its connection takes nothing for too long: it is ended, and another one opened.
    Reopen,
    /// It has stood still for so many nanoseconds, which is told, once.
    Stalled(u64),
    /// It goes on after so many nanoseconds. That is told, since it was told that it stands still.
    Goes(u64),
    /// It keeps more bytes than it may: it is given up.
    GiveUp,
}

/// How a link is now.
#[derive(Clone, Copy, Debug, PartialEq, Eq)]
pub struct Standing {
    /// Whether a connection stands.
    pub stands: bool,
    /// How many bytes are confirmed.
    pub confirmed: u64,
    /// How many bytes are kept, since they aren't confirmed.
    pub kept: u64,
    /// How many of these the connection took.
    pub taken: u64,
}

impl Standing {
    ghost use Rattle.std.specs.Prelude.{◌≡◌};
    ghost use Rattle.link_streams.specs.Watches.{is_quiet};

    // Whether a connection stands, and took nothing that isn't confirmed.
    fn is_quiet(self) -> bool
        ensures { result ≡ is_quiet self }
    {
        self.stands && self.taken == 0
    }
}

/// A watch over a link. Times are nanoseconds of one clock, which never goes back.
#[derive(Clone, Copy, Debug)]
pub struct LinkWatch {
    timeout: u64,
    most: u64,
    since: u64,
    opened: u64,
    confirmed: u64,
    // Whether the last look found it quiet.
    is_quiet: bool,
    is_told: bool,
}

impl Model for LinkWatch {
    ghost use Rattle.link_streams.specs.Watches.{Watching};

    ghost Value = { Watching };

    ghost view = { λ w. record {
      timeout = w.timeout;
      most = w.most;
      since = w.since;
      opened = w.opened;
      confirmed = w.confirmed;
      is_quiet = w.is_quiet;
      is_told = w.is_told;
    } };

    ghost inverse = { λ w. record {
      timeout = w.timeout;
      most = w.most;
      since = w.since;
      opened = w.opened;
      confirmed = w.confirmed;
      is_quiet = w.is_quiet;
      is_told = w.is_told;
    } };
}

impl LinkWatch {
    ghost use Rattle.std.specs.Prelude.{◌≡◌, false, not, if◌then◌else◌};
    ghost use Rattle.link_streams.specs.declared.watches.LinkDue.TheVariants.{Goes, Nothing};
    ghost use Rattle.link_streams.specs.Watches.{begun, due, goes, looked, until};

    /// Of a link whose connection stands since now. A connection may take nothing for `timeout`, and the link may keep
    /// `most` bytes.
    pub fn new(timeout: u64, most: u64, now: u64) -> LinkWatch
        ensures { result ≡ begun timeout most now }
    {
        LinkWatch {
            timeout,
            most,
            since: now,
            opened: now,
            confirmed: 0,
            is_quiet: true,
            is_told: false,
        }
    }

    /// A new connection stands.
    pub fn opened(&mut self, now: u64)
        ensures { self.new ≡ record self.old { opened = now } }
    {
        self.opened = now;
    }

    /// What is due for a link that is so now.
    pub fn next(&mut self, link: Standing, now: u64) -> LinkDue
        ensures due { result ≡ due self.old link now }
        ensures looked { self.new ≡ looked self.old link now }
    {
        if link.kept > self.most {
            return LinkDue::GiveUp;
        }
        let until = self.until(now);
        let still = now.saturating_sub(until);
        let goes = self.goes(link);
        self.since = until;
        self.confirmed = link.confirmed;
        self.is_quiet = link.is_quiet();
        if goes {
            return self.go_on(still, now);
        }
        if !self.is_told && still / 2 >= self.timeout {
            self.is_told = true;
            return LinkDue::Stalled(still);
        }
        if link.stands && still >= self.timeout && now.saturating_sub(self.opened) >= self.timeout {
            LinkDue::Reopen
        } else {
            LinkDue::Nothing
        }
    }

    /// Whether the last look didn't find the link quiet: then it has to be looked at again, though nobody asks for it.
    pub fn is_awaited(&self) -> bool
        ensures { result ≡ not self.now.is_quiet }
    {
        !self.is_quiet
    }

    // It goes on after so long.
    fn go_on(&mut self, still: u64, now: u64) -> LinkDue
        ensures due { result ≡ (if self.old.is_told then Goes still else Nothing) }
        ensures looked { self.new ≡ record self.old { since = now; is_told = false } }
    {
        self.since = now;
        if self.is_told {
            self.is_told = false;
            LinkDue::Goes(still)
        } else {
            LinkDue::Nothing
        }
    }

    // Until when it went on.
    fn until(&self, now: u64) -> u64
        ensures { result ≡ until self.now now }
    {
        if self.is_quiet { now } else { self.since }
    }

    // Whether it goes on.
    fn goes(&self, link: Standing) -> bool
        ensures { result ≡ goes self.now link }
    {
        link.is_quiet() || (link.stands && link.confirmed > self.confirmed)
    }
}
