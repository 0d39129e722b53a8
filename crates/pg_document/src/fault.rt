//! Why a text is no document.

ghost use Rattle.std.specs.Prelude.{◌≡◌};
ghost use Rattle.pg_document.specs.declared.fault.DocFault.TheVariants.{NoMemory};

use std::alloc::{AllocError, AllocFailed};
use thiserror::Error;

/// Why a text is no derivation or no schedule: its first fault.
#[derive(Clone, Copy, Debug, PartialEq, Eq, Error)]
pub enum DocFault {
    /// The place, as a byte's from 0, of the first word that can't stand where it is; of the newline where a word is missing; or the
    /// text's length where it ends early.
    #[error("unexpected at byte {0}")]
    Unexpected(u32),
    /// The number of a version that is not known.
    #[error("the version {0} is not known")]
    Version(u32),
    /// Memory ran out.
    #[error("out of memory")]
    NoMemory,
}

impl From<AllocError> for DocFault {
    ghost from_gives = { λ _ e. e ≡ NoMemory };

    fn from(_cause: AllocError) -> DocFault {
        DocFault::NoMemory
    }
}

impl<T: Drop> From<AllocFailed<T>> for DocFault {
    ghost from_gives = { λ _ e. e ≡ NoMemory };

    fn from(_cause: AllocFailed<T>) -> DocFault {
        DocFault::NoMemory
    }
}
