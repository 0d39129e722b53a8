//! Why a tree is not valid.

use thiserror::Error;

/// The faults are looked for line by line and, within a leaf, clause by clause from left to right, and the first is given. A line
/// is told by its number in the file. This project's own, with the format of derivations.
#[derive(Clone, Copy, Debug, PartialEq, Eq, Error)]
pub enum TreeFault {
    /// The trail was made for so many atoms, and the obligation has more.
    #[error("the trail has room for {0} atoms")]
    TrailFull(u32),
    /// The atom of a split is none of the obligation's, or it has a value from an open split.
    #[error("bad literal on line {0}")]
    BadLiteral(u32),
    /// No clause has the number.
    #[error("no clause {n} on line {line}")]
    BadClause { line: u32, n: u32 },
    /// A clause before the last of its leaf has not exactly one literal without a value and all others false.
    #[error("clause {n} is not unit on line {line}")]
    NotUnit { line: u32, n: u32 },
    /// The last clause of a leaf is not all false.
    #[error("no conflict on line {0}")]
    NoConflict(u32),
    /// The lines end before the tree is complete; the line is the last one.
    #[error("the tree ends early, on line {0}")]
    EndsEarly(u32),
    /// A line stands after the tree is complete.
    #[error("line {0} is too much")]
    TooMuch(u32),
}
