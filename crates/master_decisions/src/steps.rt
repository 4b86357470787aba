//! The steps of servers that a master that watches prints, one line each.
ghost use Rattle.std.specs.Prelude.{◌≡◌, true, false, not};
ghost use Rattle.master_decisions.specs.Steps.{none_told, step_of, told_of, with_told};
ghost use Rattle.master_decisions.specs.ServerSets.{is_among};

use crate::news::News;
use crate::server_sets::once;
use node::View;

/// What a watch saw of a server.
#[derive(Clone, Copy, PartialEq, Eq)]
pub enum Step {
    /// It has accepted a connection.
    Connected,
    /// The connection has ended.
    ConnectionLost,
    /// It can't be reached.
    NotReached,
    /// Its process has ended.
    Ended,
}

/// The step of a server that is news, if it is one.
pub fn step_of(news: &News) -> Option<(u8, Step)>
    ensures { result ≡ step_of news.now }
{
    match news {
        News::Met(i, _, _) => Some((*i, Step::Connected)),
        News::Broken(i) => Some((*i, Step::ConnectionLost)),
        News::Lost(i) => Some((*i, Step::NotReached)),
        News::Ended(i) => Some((*i, Step::Ended)),
        News::Typed(_)
        | News::BadLine
        | News::Told(_, _)
        | News::Stalled(_, _)
        | News::Answered(_, _)
        | News::Fault(_) => None,
    }
}

/// Of which servers that are gone each step was told.
#[derive(Drop)]
pub struct ToldSteps {
    connected: View,
    lost: View,
    unreached: View,
    ended: View,
}

impl ToldSteps {
    /// Of none.
    pub fn new() -> ToldSteps
        ensures { result ≡ none_told }
    {
        ToldSteps {
            connected: View::empty(),
            lost: View::empty(),
            unreached: View::empty(),
            ended: View::empty(),
        }
    }

    /// Whether this step of server `i` is told. Each is of a server that isn't gone. Of one that is gone each step is
    /// told once, however often it accepts a connection and closes it. It counts as told then.
    pub fn tells(&mut self, is_gone: bool, i: u8, step: Step) -> bool
        ensures living { is_gone ≡ false → result ≡ true }
        ensures first { is_gone ≡ true → result ≡ not (is_among (told_of self.old step) i) }
        ensures noted { is_gone ≡ true → result ≡ true → self.new ≡ with_told self.old step i }
        ensures kept { result ≡ false → self.new ≡ self.old }
        ensures unnoted { is_gone ≡ false → self.new ≡ self.old }
    {
        if !is_gone {
            return true;
        }
        match step {
            Step::Connected => once(&mut self.connected, i),
            Step::ConnectionLost => once(&mut self.lost, i),
            Step::NotReached => once(&mut self.unreached, i),
            Step::Ended => once(&mut self.ended, i),
        }
    }
}
