//! Laws of runs: what comes of a session, whatever is done with it one after another.
ghost use Rattle.std.specs.Prelude.{◌≡◌, ◌+◌, ◌<◌, ◌++◌, None, false, length};
ghost use Rattle.table.specs.Items.{limit};
ghost use Rattle.proto.specs.Words.{line_limit};
ghost use Rattle.proto.specs.Turns.{calls_of};
ghost use Rattle.proto.specs.Sessions.{next_of};
ghost use Rattle.proto.specs.Streams.{ends, outcome_texts, to_come, turns};
ghost use Rattle.proto.specs.Runs.{IsRun, Run, open_calls};

/// The turns that a session gave, and those that it has still to give, are those of all its bytes as one stream:
/// they do not depend on how the stream was cut, nor on when the session was asked, answered, or its output taken.
pub fn any_cutting()
    ensures { (run : Run) → IsRun run → run.given ++ to_come run.held ≡ turns run.stream }
{}

/// A session that has no turn to give has given all the turns of its stream, and is closed then exactly if its stream
/// has come to a request after which there is none: `quit`, or a line that is too long.
pub fn closes_at_last()
    ensures all { (run : Run) → IsRun run → (next_of run.held).0 ≡ None
        → run.given ≡ turns run.stream }
    ensures closed { (run : Run) → IsRun run → (next_of run.held).0 ≡ None
        → (next_of run.held).1.closed ≡ ends run.stream }
{}

/// The output that was taken, followed by the output that is left, is the texts of the turns that were given,
/// each call's with what it came to: its reply's, or the one that says that it was refused.
pub fn output_is_texts()
    ensures { (run : Run) → IsRun run → run.taken ++ run.held.out ≡ outcome_texts run.given run.outcomes }
{}

/// Each call that was given has its reply or was refused, save the one that is open.
pub fn calls_have_outcomes()
    ensures { (run : Run) → IsRun run
        → length run.outcomes + open_calls run.held.asked ≡ length (calls_of run.given) }
{}

/// An open session that has no turn to give holds less than a line and a block of the largest size, with its two bytes
/// more: no client can make it keep more.
pub fn holds_little()
    ensures { (run : Run) → IsRun run → (next_of run.held).0 ≡ None → (next_of run.held).1.closed ≡ false
        → length (next_of run.held).1.unread < line_limit + limit + 2 }
{}
