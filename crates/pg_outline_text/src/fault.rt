//! Why a text is no outline.

ghost use Rattle.std.specs.Prelude.{◌≡◌};
ghost use Rattle.pg_outline_text.specs.declared.fault.FileFault.TheVariants.{NoMemory};

use pg_lex::TextFault;
use pg_outline::OutlineFault;
use pg_program::ProgramFault;
use std::alloc::{AllocError, AllocFailed};
use thiserror::Error;

/// Why a text is no outline: the first fault in the order of the text, its version included; then that of the program, then that
/// of the outline's formulas.
#[derive(Debug, Drop, Error)]
pub enum FileFault {
    #[error("{0}")]
    Text(TextFault),
    /// The number after `pierogi`.
    #[error("the version {0} is not known")]
    Version(u32),
    #[error("{0}")]
    Program(ProgramFault),
    #[error("{0}")]
    Outline(OutlineFault),
    /// Memory ran out, in any part of the work.
    #[error("out of memory")]
    NoMemory,
}

impl From<AllocError> for FileFault {
    ghost from_gives = { λ _ e. e ≡ NoMemory };

    fn from(_cause: AllocError) -> FileFault {
        FileFault::NoMemory
    }
}

impl<T: Drop> From<AllocFailed<T>> for FileFault {
    ghost from_gives = { λ _ e. e ≡ NoMemory };

    fn from(_cause: AllocFailed<T>) -> FileFault {
        FileFault::NoMemory
    }
}
