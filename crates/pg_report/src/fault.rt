//! Why a report was not put whole.

use std::alloc::AllocError;
use thiserror::Error;

/// Why a report was not put whole.
#[derive(Clone, Copy, Debug, PartialEq, Eq, Error)]
pub enum ReportFault {
    /// The sink failed: its count of faults rose.
    #[error("the report could not be written")]
    Write,
    #[error("out of memory")]
    NoMemory,
}

impl From<AllocError> for ReportFault {
    ghost use Rattle.std.specs.Prelude.{◌≡◌};
    ghost use Rattle.pg_report.specs.declared.fault.ReportFault.TheVariants.{NoMemory};

    ghost from_gives = { λ _ e. e ≡ NoMemory };

    fn from(_: AllocError) -> ReportFault {
        ReportFault::NoMemory
    }
}
