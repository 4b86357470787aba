//! A server that shows its face: the node, the log of what it took, and the writer of its face.
ghost use Rattle.std.specs.Prelude.{◌≡◌, ◌↔◌, ◌<◌, ◌^◌, [], true, false, IfOk, IfErr, OnOk, OnErr, IsErrOf};
ghost use Rattle.node.specs.Lawful.{IsInput, AreFit};
ghost use Rattle.faces.specs.Boards.{IsShownBy};
ghost use Rattle.faces.specs.Histories.{shown_after, with_next};
ghost use Rattle.faces.specs.Outputs.{last_outputs};
ghost use Rattle.faces.specs.Readers.{yet_to_look};
ghost use Rattle.faces.specs.Showing.{pending};
ghost use Rattle.faces.specs.Weights.{weight_of};

use crate::boards::{FaceWriter, begin, place, publish};
use crate::faces::Face;
use crate::log_positions::LogPosition;
use crate::logs::Log;
use crate::published::Published;
use crate::readers::Reader;
use crate::{FaceFault, Weight};
use node::{Input, Node, Output};
use std::alloc::Global;
use std::marker::Model;
use std::sync::Wait;

/// A server that shows its face, until an input is refused. Contracts see what it has published, which are the inputs
/// that it took, and whether it goes on (`Publishing`). While it goes on, its node is the server after them, and what
/// is shown is the face of that server. It isn't `Drop`: end it by `end`.
pub struct Publisher {
    node: Node,
    log: Log,
    // None once an input was refused.
    writer: Option<FaceWriter>,
    published: Published,
}

impl Model for Publisher {
    ghost use Rattle.std.specs.Prelude.{is_some};
    ghost use Rattle.std.specs.Coded.{codes};
    ghost use Rattle.logbook.specs.Pages.{book_coded};
    ghost use Rattle.versions.specs.Stores.{coded_items};
    ghost use Rattle.faces.specs.Publishers.{Publishing, IsShowing};

    ghost Value = { Publishing };

    ghost coded = { Prim.hlevel (codes, coded_items, book_coded) };

    ghost view = { λ p. record { published = p.published; goes = is_some p.writer } };

    ghost invariant = { λ p. IsShowing p.writer p.node p.log p.published };
}

impl Publisher {
    /// A server that has published no input, with room for this many readers beside it. It shows the face of its node,
    /// whatever that has taken before. Refused if memory is out. Time is linear in what the node holds.
    pub fn open<R: Wait>(
        rt: &R,
        alloc: Global,
        node: Node,
        readers: usize,
    ) -> Result<Publisher, FaceFault>
        requires readers { (0 < readers) × (readers < 2 ^ 32) }
        requires running { node.stopped ≡ false }
        ensures start { IfOk result (λ publisher. publisher.published.instance.start ≡ node.server) }
        ensures inputs { IfOk result (λ publisher. publisher.published.inputs ≡ []) }
        ensures going { IfOk result (λ publisher. publisher.goes ≡ true) }
        ensures memory { IfErr result (λ fault. fault ≡ FaceFault.Memory) }
    {
        let (log, log_position) = LogPosition::open(&node);
        let Ok(writer) = first_writer(alloc, &node, &log_position, readers) else {
            drop(log);
            drop(node);
            return Err(FaceFault::Memory);
        };
        let (writer, shown) = begin(rt, writer);
        let Ok(published) = shown else {
            drop(log);
            drop(node);
            writer.take(rt);
            return Err(FaceFault::Memory);
        };
        Ok(Publisher {
            node,
            log,
            writer: Some(writer),
            published,
        })
    }

    /// What it has published.
    pub fn published(&self) -> &Published
        ensures { result.now ≡ self.now.published }
    {
        &self.published
    }

    /// How much the face weighs that was published last: how many keys have a version there, and the bytes of these
    /// keys and of their data. In constant time.
    pub fn weight(&self) -> Weight
        ensures { result ≡ weight_of (shown_after self.now.published).versions }
    {
        self.published.weight()
    }

    /// One more reader, which has seen what is published, and hasn't looked yet. Refused with Memory if memory is out
    /// or there is no room for it, and with Closed exactly after an input was refused.
    pub fn reader(&mut self) -> Result<Reader, FaceFault>
        ensures reader { IfOk result (λ reader. reader ≡ yet_to_look self.old.published) }
        ensures closed { IsErrOf result FaceFault.Closed ↔ (self.old.goes ≡ false) }
        ensures unchanged { self.new ≡ self.old }
    {
        let Some(writer) = &mut self.writer else {
            return Err(FaceFault::Closed);
        };
        let place = place(writer)?;
        Ok(Reader::new(place, self.published.log_position().again()))
    }

    /// Takes an input: the node makes its step, and the face after it is published. It gives all that the step put out.
    /// It waits for the readers that still look at the face before the last one. Refused with Closed if the log is
    /// full: then the input wasn't taken; and with Memory. Either way nothing was published, the face is taken away,
    /// and each later input is refused with Closed.
    pub fn take<R: Wait>(&mut self, rt: &R, input: Input) -> Result<Vec<Output>, FaceFault>
        requires { IsInput input }
        ensures goes { OnOk result ((self.old.goes ≡ true) × (self.new.goes ≡ true)) }
        ensures published { OnOk result (self.new.published ≡ with_next self.old.published input) }
        ensures outputs { IfOk result
            (λ outputs. outputs.items ≡ last_outputs self.new.published.instance.start self.new.published.inputs) }
        // Each message may be sent, and handed in where it goes.
        ensures fit { IfOk result (λ outputs. AreFit outputs.items) }
        ensures stops { OnErr result (self.new.goes ≡ false) }
        ensures unchanged { OnErr result (self.new.published ≡ self.old.published) }
        ensures closed { self.old.goes ≡ false → IsErrOf result FaceFault.Closed }
    {
        let Some(writer) = self.writer.take() else {
            drop(input);
            return Err(FaceFault::Closed);
        };
        let Some(log_position) = self.published.log_position().next(&self.log, &input) else {
            drop(input);
            writer.take(rt);
            return Err(FaceFault::Closed);
        };
        let Ok((outputs, change)) = self.node.step_face(input) else {
            drop(log_position);
            writer.take(rt);
            return Err(FaceFault::Memory);
        };
        let (writer, shown) = publish(rt, writer, change, log_position);
        let Ok(published) = shown else {
            drop(outputs);
            writer.take(rt);
            return Err(FaceFault::Memory);
        };
        self.published = published;
        if let Some(other) = self.writer.replace(writer) {
            other.take(rt);
        }
        Ok(outputs)
    }

    /// Takes the face away: readers then get Closed. It waits for those that still look.
    pub fn end<R: Wait>(self, rt: &R) {
        let Publisher {
            node,
            log,
            writer,
            published,
        } = self;
        drop(node);
        drop(log);
        drop(published);
        if let Some(writer) = writer {
            writer.take(rt);
        }
    }
}

// A writer that is to show this node's face, after no input.
fn first_writer(
    alloc: Global,
    node: &Node,
    log_position: &LogPosition,
    readers: usize,
) -> Result<FaceWriter, FaceFault>
    requires readers { (0 < readers) × (readers < 2 ^ 32) }
    requires first { log_position.now.inputs ≡ [] }
    requires start { log_position.now.instance.start ≡ node.now.server }
    ensures nothing { IfOk result (λ writer. pending writer ≡ []) }
    ensures face { IfOk result (λ writer. IsShownBy writer.desk.shown.value) }
    ensures history { IfOk result (λ writer. writer.desk.shown.value.history ≡ log_position.now) }
{
    let (first, second) = Face::copies(alloc, node.face()?, log_position)?;
    let writer = FaceWriter::new(alloc, first, second, readers)?;
    Ok(writer)
}
