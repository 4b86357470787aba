//! Why a scenario ends early: the exit status of each cause, and its line.
ghost use Rattle.std.specs.Prelude.{◌≡◌, ◌+◌, ◌++◌, OnOk, OnErr};
ghost use Rattle.ends.specs.Ends.{WritesBeginning};

use command_line::{FAILED, MEMORY};
use ends::{ReadFault, Sink, WriteFault, write_all};
use itoa::Buffer;
use schedules::ScheduleFault;
use std::alloc::AllocError;
use thiserror::Error;
use world::SceneFault;

/// Why a scenario wasn't replayed.
#[derive(Clone, Copy, Debug, PartialEq, Eq, Error)]
pub enum ScenarioFault {
    /// No memory was left.
    #[error("out of memory")]
    Memory,
    /// The schedule can't be read.
    #[error("cannot read the schedule")]
    Unreadable,
    /// The line of this number, counted from 1, is no schedule line.
    #[error("line {0}: bad schedule line")]
    BadLine(u64),
    /// The output can't be written.
    #[error("run failed")]
    Run,
}

impl ScenarioFault {
    ghost use Rattle.std.specs.Prelude.{◌≡◌, ◌+◌, OnOk, OnErr};
    ghost use Rattle.ends.specs.Ends.{WritesBeginning};
    ghost use Rattle.commands.specs.Faults.{status_of, line_of};

    /// The exit status: 3 if memory is out, else 1.
    pub fn status(self) -> u8
        ensures { result ≡ status_of self }
    {
        match self {
            ScenarioFault::Memory => MEMORY,
            _ => FAILED,
        }
    }

    /// Tells the fault in one line, with the name of the schedule's file. It allocates nothing.
    pub fn tell<X: Sink>(self, name: &str, errors: &mut X) -> Result<(), WriteFault>
        ensures told { OnOk result (X.written errors.new ≡ X.written errors.old ++ line_of name.now self) }
        ensures none_failed { OnOk result (X.failures errors.new ≡ X.failures errors.old) }
        ensures begun { OnErr result
            (WritesBeginning (X.written errors.old) (X.written errors.new) (line_of name.now self)) }
        ensures failed { OnErr result (X.failures errors.new ≡ X.failures errors.old + 1) }
    {
        match self {
            ScenarioFault::Memory => write_all(errors, b"craq: out of memory\n"),
            ScenarioFault::Unreadable => {
                write_parts(errors, b"craq: cannot read ", name.as_bytes(), b"\n")
            }
            ScenarioFault::BadLine(number) => {
                let mut digits = Buffer::new();
                let number = digits.format(number).as_bytes();
                write_parts(errors, b"craq: line ", number, b": bad schedule line\n")
            }
            ScenarioFault::Run => write_all(errors, b"craq: run failed\n"),
        }
    }
}

/// Writes three pieces, one after another.
pub(crate) fn write_parts<X: Sink>(
    errors: &mut X,
    start: &[u8],
    middle: &[u8],
    end: &[u8],
) -> Result<(), WriteFault>
    ensures written { OnOk result
        (X.written errors.new ≡ X.written errors.old ++ (start.now ++ middle.now ++ end.now)) }
    ensures none_failed { OnOk result (X.failures errors.new ≡ X.failures errors.old) }
    ensures begun { OnErr result
        (WritesBeginning (X.written errors.old) (X.written errors.new) (start.now ++ middle.now ++ end.now)) }
    ensures failed { OnErr result (X.failures errors.new ≡ X.failures errors.old + 1) }
{
    write_all(errors, start)?;
    write_all(errors, middle)?;
    write_all(errors, end)
}

impl From<AllocError> for ScenarioFault {
    ghost use Rattle.std.specs.Prelude.{◌≡◌};
    ghost use Rattle.commands.specs.declared.faults.ScenarioFault.TheVariants.{Memory};

    ghost from_gives = { λ _ f. f ≡ Memory };

    fn from(_e: AllocError) -> ScenarioFault {
        ScenarioFault::Memory
    }
}

impl From<ReadFault> for ScenarioFault {
    ghost use Rattle.std.specs.Prelude.{◌≡◌};
    ghost use Rattle.commands.specs.Faults.{of_reading};

    ghost from_gives = { λ e f. f ≡ of_reading e };

    fn from(e: ReadFault) -> ScenarioFault {
        match e {
            ReadFault::Memory => ScenarioFault::Memory,
            ReadFault::Read => ScenarioFault::Unreadable,
        }
    }
}

impl From<ScheduleFault> for ScenarioFault {
    ghost use Rattle.std.specs.Prelude.{◌≡◌};
    ghost use Rattle.commands.specs.Faults.{of_schedule};

    ghost from_gives = { λ e f. f ≡ of_schedule e };

    fn from(e: ScheduleFault) -> ScenarioFault {
        match e {
            ScheduleFault::Memory => ScenarioFault::Memory,
            ScheduleFault::BadLine(number) => ScenarioFault::BadLine(number),
        }
    }
}

impl From<SceneFault> for ScenarioFault {
    ghost use Rattle.std.specs.Prelude.{◌≡◌};
    ghost use Rattle.commands.specs.Faults.{of_scene};

    ghost from_gives = { λ e f. f ≡ of_scene e };

    fn from(e: SceneFault) -> ScenarioFault {
        match e {
            SceneFault::Memory => ScenarioFault::Memory,
            SceneFault::BadCount | SceneFault::BadHomes | SceneFault::Spoiled => {
                ScenarioFault::Run
            },
        }
    }
}

impl From<WriteFault> for ScenarioFault {
    ghost use Rattle.std.specs.Prelude.{◌≡◌};
    ghost use Rattle.commands.specs.declared.faults.ScenarioFault.TheVariants.{Run};

    ghost from_gives = { λ _ f. f ≡ Run };

    fn from(_e: WriteFault) -> ScenarioFault {
        ScenarioFault::Run
    }
}
