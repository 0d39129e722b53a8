//! The faults of assertions, preconditions and crash formulas.

use std::alloc::{AllocError, AllocFailed};
use thiserror::Error;

/// Why no outline is made of a program and its formulas. Of several faults the first one is given: values and threads in the
/// order of the text, and after them what the expansion of the crash formula needs.
#[derive(Clone, Copy, Debug, PartialEq, Eq, Error)]
pub enum OutlineFault {
    /// A value in an atom.
    #[error("the value {0} is not in the domain")]
    ValueOutOfDomain(u32),
    /// A thread in an atom.
    #[error("there is no thread {0}")]
    UnknownThread(u32),
    /// How many locations the crash formula names.
    #[error("the crash formula names {0} locations, and not at most 3")]
    CrashLocations(u32),
    /// How many nodes the expansion of the crash formula has.
    #[error("the expansion of the crash formula has {0} nodes, and not at most 8192")]
    CrashNodes(u64),
    #[error("out of memory")]
    NoMemory,
}

impl From<AllocError> for OutlineFault {
    ghost use Rattle.std.specs.Prelude.{◌≡◌};
    ghost use Rattle.pg_outline.specs.declared.fault.OutlineFault.TheVariants.{NoMemory};

    ghost from_gives = { λ _ e. e ≡ NoMemory };

    fn from(_: AllocError) -> OutlineFault {
        OutlineFault::NoMemory
    }
}

impl<T: Drop> From<AllocFailed<T>> for OutlineFault {
    ghost use Rattle.std.specs.Prelude.{◌≡◌};
    ghost use Rattle.pg_outline.specs.declared.fault.OutlineFault.TheVariants.{NoMemory};

    ghost from_gives = { λ _ e. e ≡ NoMemory };

    fn from(_: AllocFailed<T>) -> OutlineFault {
        OutlineFault::NoMemory
    }
}
