//! Meanings: what atoms, formulas and crash formulas say of a state of the machine, what a crash may leave of it, and
//! executions.
//!
//! What this crate promises the layers above: the definitions, in `specs/`: the truth of the nine kinds of atom in a state, by
//! the positions that a view shows; that of formulas; that of the atoms of a step; crash choices, by a cut of each cache line, and
//! the memories that they leave; when a crash formula holds at a crash; and executions. `holds_atom`, `holds`, `holds_crash` and
//! `holds_step_atom` answer just these meanings, and take no memory. `crash` gives the memory of a crash choice, or gives exactly
//! the first fault of positions that are none. The laws in `laws` say of the definitions that a crash formula holds at a crash where
//! its expansion is true, and conversely where it names no two locations of one line, how the sets of what is readable nest and what
//! changes them, which atoms give which, and that version 1 is the case of a line for each location. What crates above cite of
//! the machine's definitions is passed on.
#![tactic(auto)]

mod atom;
mod crashes;
mod fault;
mod formula;
pub mod laws;
mod valuation;
mod window;

pub use atom::holds_atom;
pub use crashes::{Nvm, crash};
pub use fault::CrashFault;
pub use formula::{holds, holds_crash};
pub use pg_machine::{Event, MAX_MESSAGES, State, StepFault};
pub use valuation::holds_step_atom;
