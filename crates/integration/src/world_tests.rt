//! Tests over scenes, schedules and transcripts.

use crate::making::Fault;
use schedules::ScheduleFault;
use world::SceneFault;

mod printing;
mod refusals;
mod scenes;
mod schedule_texts;

impl From<SceneFault> for Fault {
    fn from(fault: SceneFault) -> Fault {
        match fault {
            SceneFault::Memory => Fault::Memory,
            SceneFault::BadCount | SceneFault::BadHomes | SceneFault::Spoiled => Fault::Refused,
        }
    }
}

impl From<ScheduleFault> for Fault {
    fn from(fault: ScheduleFault) -> Fault {
        match fault {
            ScheduleFault::Memory => Fault::Memory,
            ScheduleFault::BadLine(_) => Fault::Refused,
        }
    }
}
