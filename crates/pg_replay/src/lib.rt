//! The replay of a schedule on an outline: a run of the machine that is tested line by line.
//!
//! What this crate promises the layer above: `replay` takes the lines of a schedule from the fresh state on, which counts as line 1,
//! and answers just what `specs/Replay.antt` defines: how many lines were steps, and the first violation, that is the first assertion at
//! a thread's point that does not hold, or the first memory of a crash line that the crash formula does not hold of; or the first line
//! that the machine refuses, with its fault. It puts a line of `specs/Trace.antt` for each line that is taken, the whole trace or a
//! prefix of it (`specs/Put.antt`). The laws in `laws`: a schedule has exactly one answer on an outline, and where the outline is
//! safe and the fresh state meets its precondition, a replay shows no violation.
#![tactic(auto)]

mod answer;
mod fault;
pub mod laws;
mod lines;
mod moves;
mod replaying;
mod trace;
mod violation;

pub use answer::{Replayed, Violation};
pub use fault::ReplayFault;
pub use replaying::replay;
