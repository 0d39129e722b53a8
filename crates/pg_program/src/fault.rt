//! The faults of names and threads.

use crate::point::PointId;
use std::alloc::AllocError;
use thiserror::Error;

/// Why no program is built of names and threads. Of several faults the one that stands first here is given, and
/// of one kind the first in the order of the text, where the initial values stand before the statements.
#[derive(Debug, Drop, Error)]
pub enum ProgramFault {
    #[error("the domain has {0} values, and not 2 to 4")]
    DomainSize(u32),
    #[error("there is no thread {0}")]
    UnknownThread(u32),
    #[error("register {0} belongs to another thread")]
    ForeignRegister(String),
    #[error("auxiliary {0} stands outside a bracket")]
    AuxInProgram(String),
    #[error("auxiliary {0} is assigned twice in a bracket")]
    AuxTwice(String),
    #[error("the value {0} is not in the domain")]
    ValueOutOfDomain(u32),
    #[error("an expression or a condition reads more than four names")]
    ExpressionNames(PointId),
    #[error("out of memory")]
    NoMemory,
}

impl From<AllocError> for ProgramFault {
    ghost use Rattle.std.specs.Prelude.{◌≡◌};
    ghost use Rattle.pg_program.specs.declared.fault.ProgramFault.TheVariants.{NoMemory};

    ghost from_gives = { λ _ e. e ≡ NoMemory };

    fn from(_: AllocError) -> ProgramFault {
        ProgramFault::NoMemory
    }
}
