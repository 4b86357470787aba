//! Changes of a face, as its copies take them in.
ghost use Rattle.std.specs.Prelude.{◌≡◌, ◌++◌, map, IfOk, OnOk};
ghost use Rattle.faces.specs.Shown.{act_of, acts_of};

use crate::log_positions::LogPosition;
use node::{FaceChange, FaceStep};
use std::alloc::{AllocError, Global};
use table::{Key, Version};

/// One change of a face. Both copies take in the same act, and share its version.
#[derive(Drop)]
pub enum Act {
    /// The key has this version from now on.
    Set(Key, Version),
    /// Every key has the version of this number without item from now on.
    Clear(u64),
    /// The commit number is this one, and the face is the server's after these inputs.
    Reach(u64, LogPosition),
}

impl Act {
    /// What a step of a change does.
    pub fn of(step: FaceStep) -> Act
        ensures { result ≡ act_of step }
    {
        match step {
            FaceStep::Set(key, version) => Act::Set(key, version),
            FaceStep::Clear(number) => Act::Clear(number),
        }
    }
}

/// The acts of a change: its steps in order, and then the commit number.
pub fn acts_of(
    alloc: Global,
    change: FaceChange,
    log_position: LogPosition,
) -> Result<Vec<Act>, AllocError>
    ensures { IfOk result (λ acts. acts.items ≡ acts_of change.steps.items change.acked log_position) }
{
    let FaceChange { steps, acked } = change;
    let mut acts = Vec::new(alloc);
    put_steps(steps, &mut acts)?;
    acts.push(Act::Reach(acked, log_position))?;
    Ok(acts)
}

// The acts of these steps, after those so far.
fn put_steps(steps: Vec<FaceStep>, acts: &mut Vec<Act>) -> Result<(), AllocError>
    ensures { OnOk result (acts.new.items ≡ acts.old.items ++ map act_of steps.items) }
{
    for step in steps {
        acts.push(Act::of(step))?;
    }
    Ok(())
}
