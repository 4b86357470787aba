//! What readers see of a server: its face, after some of the inputs that it took.
ghost use Rattle.std.specs.Prelude.{◌≡◌, fold, IfOk, OnOk, OnErr, MatchResult};
ghost use Rattle.std.specs.FinMap as maps;
ghost use Rattle.node.specs.Faces.{look_at, no_face};
ghost use Rattle.faces.specs.Readers.{ShowsItem};
ghost use Rattle.faces.specs.Shown.{Shown, applied, shown_first};
ghost use Rattle.faces.specs.Weights.{weight_of};
ghost use Rattle.faces.specs.declared.acts.Act.TheVariants.{Clear, Reach};

use crate::acts::{Act, acts_of};
use crate::log_positions::LogPosition;
use crate::tombstones::{set, take_away};
use crate::version_trees::VersionTree;
use crate::weights::Weight;
use left_right::Absorb;
use node::{FaceChange, Look, Tombstone};
use std::alloc::{AllocError, Global};
use std::collections::VecDeque;
use std::marker::Model;
use table::{Item, Key};

/// A server's face, with the inputs that it is said to follow. Contracts see both (`Shown`).
#[derive(Drop)]
pub struct Face {
    versions: VersionTree,
    tombstones: VecDeque<Tombstone>,
    cleared: u64,
    acked: u64,
    log_position: LogPosition,
}

impl Model for Face {
    ghost use Rattle.std.specs.Coded.{codes};
    ghost use Rattle.logbook.specs.Pages.{book_coded};
    ghost use Rattle.versions.specs.Stores.{coded_items};
    ghost use Rattle.node.specs.Faces.{IsQueued};
    ghost use Rattle.faces.specs.Versions.{coded_versions};
    ghost use Rattle.faces.specs.Shown.{Shown};

    ghost Value = { Shown };

    ghost coded = { Prim.hlevel (codes, coded_items, coded_versions, book_coded) };

    ghost view = { λ f. record {
      face = record { versions = f.versions; cleared = f.cleared; acked = f.acked };
      history = f.log_position;
    } };

    ghost invariant = { λ f. IsQueued f.versions f.tombstones.items };
}

impl Face {
    /// A face without versions.
    pub fn new(alloc: Global, log_position: LogPosition) -> Face
        ensures { result ≡ record { face = no_face; history = log_position } }
    {
        Face {
            versions: VersionTree::new(alloc),
            tombstones: VecDeque::new(alloc),
            cleared: 0,
            acked: 0,
            log_position,
        }
    }

    /// Both copies of the face that a change makes of one without versions, after the inputs that it is said to follow.
    /// They share the versions, and the bytes of keys and items.
    pub fn copies(
        alloc: Global,
        change: FaceChange,
        log_position: &LogPosition,
    ) -> Result<(Face, Face), AllocError>
        ensures first { IfOk result (λ faces. faces.0 ≡ shown_first change.steps.items change.acked log_position.now) }
        ensures second { IfOk result (λ faces. faces.1 ≡ shown_first change.steps.items change.acked log_position.now) }
    {
        let acts = acts_of(alloc, change, log_position.again())?;
        let first = Face::filled(alloc, log_position, acts.as_slice())?;
        let second = Face::filled(alloc, log_position, acts.as_slice())?;
        Ok((first, second))
    }

    fn filled(alloc: Global, log_position: &LogPosition, acts: &[Act]) -> Result<Face, AllocError>
        ensures { IfOk result
            (λ face. face ≡ fold applied (record { face = no_face; history = log_position.now }) acts.now) }
    {
        let mut face = Face::new(alloc, log_position.again());
        face.act_all(acts)?;
        Ok(face)
    }

    // Some of these acts are done if it is refused.
    fn act_all(&mut self, acts: &[Act]) -> Result<(), AllocError>
        ensures { OnOk result (self.new ≡ fold applied self.old acts.now) }
    {
        for act in acts {
            self.act(act)?;
        }
        Ok(())
    }

    /// The inputs that it is said to follow.
    pub fn log_position(&self) -> &LogPosition
        ensures { result.now ≡ self.now.history }
    {
        &self.log_position
    }

    /// How much its versions weigh, in constant time.
    pub fn weight(&self) -> Weight
        ensures { result ≡ weight_of self.now.face.versions }
    {
        self.versions.weight()
    }

    /// A look at a key. Its item shares the data. Refused, if memory is out, only if it finds an item. Time is
    /// logarithmic in the number of keys.
    pub fn look(&self, key: &Key) -> Result<Look<Item>, AllocError>
        ensures { MatchResult result (λ look. look ≡ look_at self.now.face key.now)
            (λ _. ShowsItem self.now.face key.now) }
    {
        match self.versions.get(key) {
            Some(version) => {
                if version.number() <= self.acked {
                    Ok(Look::Clean(version.item()?))
                } else {
                    Ok(Look::Dirty)
                }
            }
            None => {
                if self.cleared <= self.acked {
                    Ok(Look::Clean(None))
                } else {
                    Ok(Look::Dirty)
                }
            }
        }
    }

    fn act(&mut self, act: &Act) -> Result<(), AllocError>
        ensures ok { OnOk result (self.new ≡ applied self.old act.now) }
        ensures err { OnErr result (self.new ≡ self.old) }
    {
        match act {
            Act::Set(key, version) => set(&mut self.versions, &mut self.tombstones, key, version),
            Act::Clear(number) => {
                self.clear(*number);
                Ok(())
            }
            Act::Reach(acked, log_position) => {
                self.reach(*acked, log_position);
                Ok(())
            }
        }
    }

    fn clear(&mut self, number: u64)
        ensures { self.new ≡ applied self.old (Clear number) }
    {
        self.versions.clear();
        self.tombstones.clear();
        self.cleared = number;
    }

    fn reach(&mut self, acked: u64, log_position: &LogPosition)
        ensures { self.new ≡ applied self.old (Reach acked log_position.now) }
    {
        take_away(&mut self.versions, &mut self.tombstones, acked);
        if self.cleared <= acked {
            self.cleared = 0;
        }
        self.acked = acked;
        self.log_position = log_position.again();
        self.versions.sweep();
    }
}

impl Absorb<Act> for Face {
    type State = Face;

    ghost state = { λ f. f };

    ghost applied = { applied };

    fn absorb_first(&mut self, operation: &Act, _other: &Face) -> Result<(), AllocError> {
        self.act(operation)
    }
}
