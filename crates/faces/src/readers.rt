//! Readers beside a server: they look at its face, and wait for nobody.
ghost use Rattle.std.specs.Prelude.{◌≡◌, ◌++◌, ◌∷◌, [], IfOk, OnOk, OnErr, IsErrOf};
ghost use Rattle.left_right.specs.Sides.{view};
ghost use Rattle.node.specs.Faces.{look_at};
ghost use Rattle.faces.specs.Boards.{Knows, seated};
ghost use Rattle.faces.specs.Histories.{History, IsLater, shown_after};
ghost use Rattle.faces.specs.Readers.{HasLookedAtMostOnce, ShowsItem, yet_to_look};

use crate::FaceFault;
use crate::boards::{BoardSteps, FacePlace};
use crate::faces::Face;
use crate::log_positions::LogPosition;
use crate::published::Told;
use node::Look;
use std::marker::Model;
use table::{Item, Key};

/// A reader of one server. Contracts see what it has seen or was told of, a beginning of the inputs that the server
/// published; and at which faces it has looked (`Looking`).
#[derive(Drop)]
pub struct Reader {
    // None only while it looks.
    place: Option<FacePlace>,
    log_position: LogPosition,
}

impl Model for Reader {
    ghost use Rattle.std.specs.Coded.{codes};
    ghost use Rattle.logbook.specs.Pages.{book_coded};
    ghost use Rattle.versions.specs.Stores.{coded_items};
    ghost use Rattle.faces.specs.Readers.{Looking, IsPlaceOf, looks_of};

    ghost Value = { Looking };

    ghost coded = { Prim.hlevel (codes, coded_items, book_coded) };

    ghost view = { λ r. record { seen = r.log_position; looks = looks_of r.place } };

    ghost invariant = { λ r. IsPlaceOf r.place r.log_position.instance };
}

impl Reader {
    /// A reader that has seen nothing, or what it is told of here.
    pub(crate) fn new(place: FacePlace, log_position: LogPosition) -> Reader
        requires server { view place.place ≡ seated log_position.instance }
        ensures { result ≡ yet_to_look log_position }
    {
        Reader {
            place: Some(place),
            log_position,
        }
    }

    /// A look at a key, in the server's face that stands at one instant of this call, after some of the inputs that it
    /// published. They begin with all that any reader's look had found by then, and with all that this one has seen or
    /// was told of, and it has then seen them. Refused with Memory if memory is out for the item, or with Closed if it
    /// finds no such face: either way it has seen no more than before. It waits for nobody. Time is logarithmic in the
    /// number of keys; the item shares its data.
    pub fn look(&mut self, key: &Key) -> Result<Look<Item>, FaceFault>
        ensures found { IfOk result (λ look. look ≡ look_at (shown_after self.new.seen) key.now) }
        // That face is the one that stood: the reader looked once, and at it.
        ensures looked { OnOk result (self.new.looks ≡ self.old.looks ++ self.new.seen ∷ []) }
        // Whatever the answer: no look is forgotten, and at most one is made.
        ensures once { HasLookedAtMostOnce self.old.looks self.new.looks }
        ensures later { IsLater self.old.seen self.new.seen }
        ensures unchanged { OnErr result (self.new.seen ≡ self.old.seen) }
        // Memory comes only at an item, in a face that stood, after no fewer inputs than it has seen.
        ensures memory { IsErrOf result FaceFault.Memory → (stood : History)
            × (self.new.looks ≡ self.old.looks ++ stood ∷ []) × IsLater self.old.seen stood
            × ShowsItem (shown_after stood) key.now }
    {
        let Some(place) = self.place.take() else {
            unreachable!();
        };
        let (place, found) = look_from(place, &mut self.log_position, key);
        self.place = Some(place);
        found
    }

    /// A note of what it has seen or was told of.
    pub fn tell(&self) -> Told
        ensures { result ≡ self.now.seen }
    {
        Told::of(self.log_position.again())
    }

    /// From now on it sees no less than what was told of. It doesn't look.
    pub fn learn(&mut self, told: Told)
        requires server { told.instance ≡ self.old.seen.instance }
        ensures later { IsLater self.old.seen self.new.seen }
        ensures told { IsLater told self.new.seen }
        ensures looks { self.new.looks ≡ self.old.looks }
    {
        let log_position = told.into_log_position();
        if log_position.has_all_of(&self.log_position) {
            self.log_position = log_position;
        }
    }
}

// A look from a place, at the face that stands when it enters, unless more was seen already.
fn look_from(
    place: FacePlace,
    log_position: &mut LogPosition,
    key: &Key,
) -> (FacePlace, Result<Look<Item>, FaceFault>)
    requires server { Knows (view place.place) log_position.old.instance }
    ensures server { Knows (view result.0.place) log_position.new.instance }
    ensures found { IfOk result.1 (λ look. look ≡ look_at (shown_after log_position.new) key.now) }
    ensures looked { OnOk result.1
        ((view result.0.place).histories ≡ (view place.place).histories ++ log_position.new ∷ []) }
    ensures once { HasLookedAtMostOnce (view place.place).histories (view result.0.place).histories }
    ensures later { IsLater log_position.old log_position.new }
    ensures unchanged { OnErr result.1 (log_position.new ≡ log_position.old) }
    ensures memory { IsErrOf result.1 FaceFault.Memory → (stood : History)
        × ((view result.0.place).histories ≡ (view place.place).histories
        ++ stood ∷ []) × IsLater log_position.old stood
        × ShowsItem (shown_after stood) key.now }
{
    match place.enter_as::<BoardSteps>() {
        Ok(reading) => {
            let found = see(log_position, reading.get(), key);
            (reading.leave(), found)
        }
        Err(place) => (place, Err(FaceFault::Closed)),
    }
}

// A look at this face, unless more was seen already.
fn see(log_position: &mut LogPosition, face: &Face, key: &Key) -> Result<Look<Item>, FaceFault>
    requires server { face.now.history.instance ≡ log_position.old.instance }
    ensures found { IfOk result (λ look. (look ≡ look_at face.now.face key.now) × (log_position.new ≡ face.now.history)) }
    ensures later { IsLater log_position.old log_position.new }
    ensures unchanged { OnErr result (log_position.new ≡ log_position.old) }
    ensures memory { IsErrOf result FaceFault.Memory →
        IsLater log_position.old face.now.history × ShowsItem face.now.face key.now }
{
    if !face.log_position().has_all_of(log_position) {
        return Err(FaceFault::Closed);
    }
    let look = face.look(key)?;
    *log_position = face.log_position().again();
    Ok(look)
}
