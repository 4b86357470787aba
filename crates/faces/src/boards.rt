//! The face that readers take, under the rule that it is the server's face after the inputs that it says, and that
//! these begin with all that any place has seen.
ghost use Rattle.std.specs.Prelude.{◌≡◌, [], true, fold, MatchResult, IfOk, OnOk};
ghost use Rattle.left_right.specs.Sides.{view};
ghost use Rattle.faces.specs.Boards.{IsShownBy, seated};
ghost use Rattle.faces.specs.Showing.{pending, Shows};
ghost use Rattle.faces.specs.Histories.{IsLater, shown_after};
ghost use Rattle.faces.specs.Shown.{acts_of, applied};
ghost use Rattle.node.specs.Faces.{face_changed};

use crate::acts::Act;
use crate::faces::Face;
use crate::log_positions::LogPosition;
use crate::published::Published;
use atomic_table::{Join, Split};
use crossbeam_utils::rule::{Outcome, Protocol};
use left_right::reader::Reader as Place;
use left_right::writer::Writer;
use node::FaceChange;
use std::alloc::{AllocError, Global};
use std::collections::LinkedList;
use std::marker::Model;
use std::sync::Wait;

/// Which running server it is, and what it began with. No value of it is made.
pub struct HistoryInstance {
    unused: u8,
}

impl Model for HistoryInstance {
    ghost use Rattle.std.specs.Coded.{codes};
    ghost use Rattle.logbook.specs.Pages.{book_coded};
    ghost use Rattle.versions.specs.Stores.{coded_items};
    ghost use Rattle.faces.specs.Histories.{Instance, nowhere};

    ghost Value = { Instance };

    ghost coded = { Prim.hlevel (codes, coded_items, book_coded) };

    ghost view = { λ n. nowhere };
}

/// What a place at the board knows: the server, once it has looked; and what it has seen, look by look: the history
/// whose face stood then. The writer's place has seen what it showed. No value of it is made.
pub struct BoardKnowledge {
    pub knows: bool,
    pub instance: HistoryInstance,
    pub histories: LinkedList<LogPosition>,
}

/// The rule of the board.
pub struct BoardRule;

impl Protocol<Face, BoardKnowledge> for BoardRule {
    ghost use Rattle.faces.specs.Boards.{Keeps, newcomer};

    ghost holds = { Keeps };

    ghost first = { newcomer };
}

/// A look at the face, and a change of it.
pub struct BoardSteps;

impl Outcome<Face, BoardKnowledge> for BoardSteps {
    ghost use Rattle.faces.specs.Boards.{Tells};

    ghost then = { λ v x y w. Tells v x y w };
}

/// A reader's place learns from the writer's whose face stands. It hasn't seen it.
pub struct ReaderLearns;

impl Split<BoardKnowledge> for ReaderLearns {
    ghost use Rattle.faces.specs.Boards.{seated};

    ghost left = { λ v. v };

    ghost right = { λ v. seated v.instance };
}

impl Join<BoardKnowledge> for ReaderLearns {
    ghost use Rattle.faces.specs.Boards.{newcomer};

    ghost both = { λ v w. w };

    ghost spent = { newcomer };
}

pub type FacePlace = Place<Face, BoardKnowledge, BoardRule>;

pub type FaceWriter = Writer<Face, Act, BoardKnowledge, BoardRule>;

/// The first face is shown, and the writer knows whose it is.
pub fn begin<R: Wait>(rt: &R, writer: FaceWriter) -> (FaceWriter, Result<Published, AllocError>)
    requires nothing { pending writer ≡ [] }
    requires face { IsShownBy writer.desk.shown.value }
    ensures { MatchResult result.1 (λ p. Shows result.0 p × (p ≡ writer.desk.shown.value.history)) (λ _. Unit {0}) }
{
    show(rt, writer)
}

/// A place for one more reader, which knows the server that the writer knows.
pub fn place(writer: &mut FaceWriter) -> Result<FacePlace, AllocError>
    requires knows { (view writer.old.desk.place).knows ≡ true }
    ensures place { IfOk result (λ place. view place.place ≡ seated (view writer.old.desk.place).instance) }
    ensures kept { (writer.new.desk.shown ≡ writer.old.desk.shown)
        × (pending writer.new ≡ pending writer.old)
        × (view writer.new.desk.place ≡ view writer.old.desk.place) }
{
    let mut place = writer.factory().reader()?;
    place.learn::<ReaderLearns>(writer.tell::<ReaderLearns>());
    Ok(place)
}

/// Shows the change of an input. It waits for those that still read the face before the last one.
pub fn publish<R: Wait>(
    rt: &R,
    writer: FaceWriter,
    change: FaceChange,
    log_position: LogPosition,
) -> (FaceWriter, Result<Published, AllocError>)
    requires nothing { pending writer ≡ [] }
    requires later { IsLater writer.desk.shown.value.history log_position }
    requires face { face_changed writer.desk.shown.value.face change.steps.items change.acked ≡ shown_after log_position }
    ensures { MatchResult result.1 (λ p. Shows result.0 p × (p ≡ log_position)) (λ _. Unit {0}) }
{
    let mut writer = writer;
    match append(&mut writer, change, log_position) {
        Ok(()) => show(rt, writer),
        Err(_) => (writer, Err(AllocError)),
    }
}

// Shows what is pending, which makes the face of the same server after the inputs that it says: no fewer than before.
fn show<R: Wait>(rt: &R, writer: FaceWriter) -> (FaceWriter, Result<Published, AllocError>)
    requires later { IsLater writer.desk.shown.value.history
        (fold applied writer.desk.shown.value (pending writer)).history }
    requires face { IsShownBy (fold applied writer.desk.shown.value (pending writer)) }
    ensures { MatchResult result.1
        (λ p. Shows result.0 p × (p ≡ (fold applied writer.desk.shown.value (pending writer)).history))
        (λ _. Unit {0}) }
{
    let (writer, shown) = writer.publish_as::<BoardSteps, R>(rt);
    match shown {
        Ok(()) => {
            let published = Published::shown(&writer);
            (writer, Ok(published))
        }
        Err(_) => (writer, Err(AllocError)),
    }
}

// Notes what the change does, for the next publish.
fn append(
    writer: &mut FaceWriter,
    change: FaceChange,
    log_position: LogPosition,
) -> Result<(), AllocError>
    requires nothing { pending writer.old ≡ [] }
    ensures desk { writer.new.desk ≡ writer.old.desk }
    ensures acts { OnOk result (pending writer.new ≡ acts_of change.steps.items change.acked log_position) }
{
    let FaceChange { steps, acked } = change;
    for step in steps {
        writer.append(Act::of(step)).map_err(|_| AllocError)?;
    }
    writer
        .append(Act::Reach(acked, log_position))
        .map_err(|_| AllocError)
}
