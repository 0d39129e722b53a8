//! Why no derivation was written, and why one is refused.

ghost use Rattle.std.specs.Prelude.{◌≡◌};

use pg_tree::TreeFault;
use std::alloc::AllocError;
use thiserror::Error;

/// Why a derivation was not put whole.
#[derive(Clone, Copy, Debug, PartialEq, Eq, Error)]
pub enum DeriveFault {
    /// The sink failed: its count of faults rose.
    #[error("the derivation could not be written")]
    Write,
    /// Memory ran out.
    #[error("out of memory")]
    NoMemory,
}

impl From<AllocError> for DeriveFault {
    ghost use Rattle.pg_derive.specs.declared.fault.DeriveFault.TheVariants.{NoMemory};

    ghost from_gives = { λ _ e. e ≡ NoMemory };

    fn from(_: AllocError) -> DeriveFault {
        DeriveFault::NoMemory
    }
}

/// Why a derivation does not prove an outline. This project's own.
#[derive(Clone, Copy, Debug, Error)]
pub enum VerifyFault {
    /// The first tree that is not valid for its obligation, by its number from 1, and its first fault.
    #[error("tree {i} is refused: {fault}")]
    Tree { i: u32, fault: TreeFault },
    /// All trees are valid, and this is the first obligation without one.
    #[error("no tree for obligation {0}")]
    Missing(u32),
    /// Each obligation has a valid tree, and this is the first tree without an obligation.
    #[error("no obligation for tree {0}")]
    Extra(u32),
    /// Memory ran out.
    #[error("out of memory")]
    NoMemory,
}

impl From<AllocError> for VerifyFault {
    ghost use Rattle.pg_derive.specs.declared.fault.VerifyFault.TheVariants.{NoMemory};

    ghost from_gives = { λ _ e. e ≡ NoMemory };

    fn from(_: AllocError) -> VerifyFault {
        VerifyFault::NoMemory
    }
}
