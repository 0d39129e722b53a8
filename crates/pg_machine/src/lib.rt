//! The machine: states of threads that share persistent memory, and the steps between them.
//!
//! What this crate promises the layers above: the definitions of a state, of a well-formed one, of a step and of a fault,
//! in `specs/`, after Px86view. `State` is such a state: `fresh` gives the first one of a program, and `step` takes the step
//! that an event leads to, or gives exactly the fault that it has and leaves the state as it was. With spare messages, which
//! `reserve` provides, it does not run out of memory. The laws in `laws`: an event leads a state to one next state at most and
//! has one fault at most, the fresh state is well formed, a step keeps a state so, and a successful cas is a store and a fence.
#![tactic(auto)]

mod access;
mod event;
mod fault;
pub mod laws;
mod memory;
mod messages;
mod positions;
mod row;
mod state;
mod views;

pub use event::Event;
pub use fault::{MAX_MESSAGES, StepFault};
pub use memory::Memory;
pub use state::State;
