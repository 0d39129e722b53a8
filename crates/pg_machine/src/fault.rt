//! The faults of an event.

use thiserror::Error;

/// How many messages a state may have: `most_messages` of the contracts, which those of `Memory` hold it to.
pub const MAX_MESSAGES: u32 = 65_535;

/// Why a state has no step by an event. The faults are tested in the order in which they stand here, and the first is
/// given. This project's own, with the machine.
#[derive(Clone, Copy, Debug, PartialEq, Eq, Error)]
pub enum StepFault {
    /// The event's thread is none of the program's.
    #[error("there is no thread {0}")]
    NoThread(u32),
    /// The thread is at its end.
    #[error("the thread has ended")]
    Ended,
    /// A position is chosen for a statement or a test that takes none.
    #[error("the statement takes no choice")]
    NoChoice,
    /// No position is chosen for a load.
    #[error("the load has no choice")]
    ChoiceMissing,
    /// The chosen position is none of the location's.
    #[error("{0} is not a position of the location")]
    NotAPosition(u32),
    /// The chosen position is below the thread's coherence view of the location.
    #[error("position {position} is below the coherence view {coh}")]
    BelowCoherence { position: u32, coh: u32 },
    /// A later message to the location hides the chosen position: for a load one up to the read view, and for a failing
    /// cas one up to the greatest coherence view. The least such position is kept.
    #[error("position {position} is hidden by {later}")]
    Hidden { position: u32, later: u32 },
    /// A failing cas reads the expected value.
    #[error("a failing cas reads the expected value {0}")]
    CasMustDiffer(u8),
    /// The last value, which is kept, is not the one that a cas without a choice expects.
    #[error("the last value {0} is not the expected one")]
    CasNotLast(u8),
    /// A message is to be appended, and there are as many as there may be.
    #[error("there are too many messages")]
    MessagesFull,
    #[error("out of memory")]
    NoMemory,
}
