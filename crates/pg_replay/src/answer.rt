//! What a replay finds.

use pg_program::PointId;

/// What does not hold, with the line after which it is found: an assertion at the point where its thread is, or the crash formula of the
/// memory of a crash line. The fresh state counts as line 1.
#[derive(Clone, Copy, Debug, PartialEq, Eq)]
pub enum Violation {
    Assertion { line: u32, at: PointId },
    Crash { line: u32 },
}

/// What a replay of lines that are all taken finds: how many of them are steps, and the first violation.
#[derive(Clone, Copy, Debug, PartialEq, Eq)]
pub struct Replayed {
    pub steps: u32,
    pub first_violation: Option<Violation>,
}
