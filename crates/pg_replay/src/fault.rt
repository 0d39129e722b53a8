//! Why a schedule was not replayed whole.

use pg_machine::StepFault;
use pg_views::CrashFault;
use std::alloc::AllocError;
use thiserror::Error;

/// Why a schedule was not replayed whole. This project's own.
#[derive(Clone, Copy, Debug, PartialEq, Eq, Error)]
pub enum ReplayFault {
    /// The line is no step of the machine.
    #[error("line {line}: {fault}")]
    Step { line: u32, fault: StepFault },
    /// The positions of the line are none that a crash may leave.
    #[error("line {line}: {fault}")]
    Crash { line: u32, fault: CrashFault },
    /// The sink failed: its count of faults rose.
    #[error("the trace could not be written")]
    Write,
    #[error("out of memory")]
    NoMemory,
}

impl From<AllocError> for ReplayFault {
    ghost use Rattle.std.specs.Prelude.{◌≡◌};
    ghost use Rattle.pg_replay.specs.declared.fault.ReplayFault.TheVariants.{NoMemory};

    ghost from_gives = { λ _ e. e ≡ NoMemory };

    fn from(_: AllocError) -> ReplayFault {
        ReplayFault::NoMemory
    }
}
