//! Points of threads, and the steps between them.

/// A point of a thread, both numbered from 1.
#[derive(Clone, Copy, Debug, PartialEq, Eq)]
pub struct PointId {
    pub thread: u8,
    pub point: u8,
}

/// Which of the steps from a point: the one of a statement that is no test, or the one that a test takes where it
/// holds, or where it does not.
#[derive(Clone, Copy, PartialEq, Eq)]
pub enum Branch {
    Plain,
    Yes,
    No,
}

/// A step of a thread from a point to another of its points, or back to the same. All are numbered from 1.
#[derive(Clone, Copy, PartialEq, Eq)]
pub struct Step {
    pub thread: u8,
    pub point: u8,
    pub branch: Branch,
    pub target: u8,
}
