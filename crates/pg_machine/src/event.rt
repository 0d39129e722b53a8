//! Events: what an execution chooses.

/// One step of one thread: the thread, numbered from 1, and the position that its statement chooses, where
/// it chooses one. A store chooses none.
#[derive(Clone, Copy, Debug, PartialEq, Eq)]
pub struct Event {
    pub thread: u32,
    pub choice: Option<u32>,
}
