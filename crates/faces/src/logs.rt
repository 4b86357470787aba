//! The log of what a server took. It exists in contracts alone: what is stored is the number of inputs.
ghost use Rattle.std.specs.Prelude.{◌≡◌, ◌<◌, ◌^◌, ◌++◌, ◌∷◌, [], length, drop, MatchBool};
ghost use Rattle.faces.specs.Logs.{head_of, IsBegun};
ghost use Rattle.faces.specs.declared.logs.HistoryItem.TheVariants.{Began, Took};

use logbook::{Gain, Offer, Opening, Plain, Play, Rule, Seen, Start, Word};
use node::{Input, Node};

/// What a log consists of. No value of it is made.
pub enum HistoryItem {
    /// The server began as this node.
    Began(Node),
    /// It took this input.
    Took(Input),
}

/// The rule of the log.
pub struct LogRule;

impl Rule<HistoryItem, u64> for LogRule {
    ghost use Rattle.std.specs.Prelude.{[]};
    ghost use base.Fml.{ftrue};
    ghost use Rattle.faces.specs.Logs.{IsCounted};

    ghost holds = { λ cells log. IsCounted cells log };

    ghost first = { [] };

    ghost hinted = { λ n log. Unit {0} };

    ghost shows = { λ log. [] };

    ghost keeps = { λ names log. ftrue };

    ghost moves = { λ ask before after answer. Unit {0} };
}

/// A log begins with its server.
struct Opens;

impl Opening<Node, HistoryItem> for Opens {
    ghost use Rattle.std.specs.Prelude.{[], ◌∷◌};
    ghost use Rattle.faces.specs.declared.logs.HistoryItem.TheVariants.{Began};

    ghost log = { λ count node. Began node ∷ [] };
}

/// A step trades nothing.
struct Nothing;

impl Gain<HistoryItem, u64> for Nothing {
    ghost use base.Fml.{ftrue};

    ghost after = { λ names about answer. ftrue };
}

/// The step that adds an input.
struct Add;

impl Play<HistoryItem, u64> for Add {
    ghost use Rattle.faces.specs.Logs.{Adds};

    ghost then = { Adds };
}

impl Plain<Input, HistoryItem, u64> for Add {
    ghost use Rattle.std.specs.Prelude.{None};
    ghost use Rattle.faces.specs.declared.logs.HistoryItem.TheVariants.{Took};

    ghost ask = { λ input. Took input };

    ghost state = { λ input. None };
}

/// What has been seen of a log.
pub type LogKnowledge = Seen<HistoryItem, u64, LogRule>;

/// The right to add to a log: the number of its inputs.
#[derive(Drop)]
pub struct Log {
    pub head: Word<HistoryItem, u64, LogRule>,
    ghost head_is: { head ≡ head_of head.book },
}

impl Log {
    /// A log of a server that took no input, and what was seen of it.
    pub fn open(node: &Node) -> (Log, LogKnowledge)
        ensures { (result.1.log ≡ Began node.now ∷ []) × (result.1.book ≡ result.0.head.book) }
    {
        let (seen, mut pens) = Seen::open_row::<Node, Opens>(node, Start::alone(), 1);
        let mut pen = pens.take();
        (
            Log {
                head: Word::tracked(0, &mut pen),
            },
            seen,
        )
    }

    /// Adds an input to all that was seen, and says whether it did.
    pub fn add(&self, seen: &mut LogKnowledge, count: u64, input: &Input) -> bool
        requires book { seen.old.book ≡ self.now.head.book }
        requires whole { (length (drop 1 seen.old.log) ≡ count) × IsBegun seen.old.log × (count < 2 ^ 62) }
        ensures book { seen.new.book ≡ seen.old.book }
        ensures added { MatchBool result (seen.new.log ≡ seen.old.log ++ Took input.now ∷ []) (Unit {0}) }
    {
        let mut offer: Offer<HistoryItem, u64, LogRule, Nothing> = seen.plain::<
            Nothing,
            Input,
            Add,
        >(input);
        let mut pen = seen.no_pen();
        self.head
            .compare_exchange::<Add, Nothing>(count, count + 1, seen, &mut offer, &mut pen)
            == count
    }
}
