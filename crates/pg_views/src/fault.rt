//! Why positions are no crash choice of a state.

use thiserror::Error;

/// The faults are tested location by location, in the order in which they stand here, and the first is given. This
/// project's own, with the machine.
#[derive(Clone, Copy, Debug, PartialEq, Eq, Error)]
pub enum CrashFault {
    /// There is not one position for each location.
    #[error("{given} positions are given for {wanted} locations")]
    WrongLength { given: u32, wanted: u32 },
    /// The position is none of the location's.
    #[error("{position} is not a position of location {x}")]
    NotAPosition { x: u8, position: u32 },
    /// A message to the location after the position stands before the cut of its line, which all of the positions give: at what was
    /// committed to the line, and at each position of a location on it. The least such position is kept.
    #[error("position {position} of location {x} is overwritten at {later}")]
    Overwritten { x: u8, position: u32, later: u32 },
    #[error("out of memory")]
    NoMemory,
}
