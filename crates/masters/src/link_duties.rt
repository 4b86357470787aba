//! What a master that watches does about links between servers that stand still: it tells a person of each; and if this
//! master reigns, it has one end of such a link called gone which has a lease.

use crate::deciding::Decider;
use crate::platforms::Platform;
use ends::Sink;
use master_decisions::{LinkNews, MasterFault, end_to_go, first_to_go, pace_of};
use node::{SERVERS, View};

/// How many links a chain may have.
const LINKS: u16 = SERVERS as u16 * SERVERS as u16;

impl<'a, W: Sink, X: Sink> Decider<'a, W, X> {
    /// Tells what is new of links that stand still, once it is settled, and decides whose answers don't count.
    pub(crate) fn judge_links<R: Platform>(&mut self, rt: &R) -> Result<(), MasterFault> {
        let milliseconds = self.running(rt);
        let (beat, after) = (
            self.printer.settings.numbers.beat,
            self.printer.settings.numbers.after,
        );
        let living = self.knowledge.living();
        let remaining = self.leaving.remaining(living);
        let heard = self.presence.answering(milliseconds, pace_of(beat, after));
        if self.stalled_links.is_settled(milliseconds, beat) {
            self.tell_links(milliseconds, remaining, heard)?;
        }
        let to_go = first_to_go(&self.stalled_links, remaining, heard);
        let to_leave = match &self.beats {
            Some(beats) => beats.to_leave(to_go, heard),
            None => None,
        };
        self.leaving.decide(to_leave, living);
        Ok(())
    }

    // Tells what is new of each link.
    fn tell_links(
        &mut self,
        milliseconds: u64,
        remaining: View,
        heard: View,
    ) -> Result<(), MasterFault> {
        for _ in 0..LINKS {
            let Some(news) = self.stalled_links.next(remaining) else {
                return Ok(());
            };
            self.tell_link(milliseconds, news, remaining, heard)?;
        }
        Ok(())
    }

    // Tells what is new of a link: that it goes on; or that it stands still, and which end of it is called gone or, if
    // that has no lease, is to be.
    fn tell_link(
        &mut self,
        milliseconds: u64,
        news: LinkNews,
        remaining: View,
        heard: View,
    ) -> Result<(), MasterFault> {
        let LinkNews {
            from,
            to,
            stands_still,
        } = news;
        let last = end_to_go(&self.stalled_links, remaining, heard, from, to);
        let what = if !stands_still {
            format!(in self.alloc; "its link to server {to} goes on")?
        } else if self.has_lease(last) {
            format!(in self.alloc;
                "its link to server {to} stands still; unless it goes on, server {last} is called gone"
            )?
        } else {
            format!(in self.alloc;
                "its link to server {to} stands still; unless it goes on, type gone {last}"
            )?
        };
        self.printer.step(milliseconds, from, what.as_bytes());
        Ok(())
    }

    // Whether server i told that it has a lease.
    fn has_lease(&self, i: u8) -> bool {
        match &self.beats {
            Some(beats) => beats.has_lease(i),
            None => false,
        }
    }
}
