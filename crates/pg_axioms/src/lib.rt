//! The axioms of the logic, as clauses.
//!
//! What this crate promises the layers above: `axioms` gives a sink exactly the clauses of the nine axioms of a side, in their
//! order; each of them is true in every well-formed state of a program with that layout; and a side has no more of them, and
//! no more literals in them, than the limits of either version of the language allow. No call takes memory.
#![tactic(auto)]

mod emitter;
mod laws;
mod rows;
mod sets;

pub use emitter::axioms;
pub use laws::{axioms_are_counted, axioms_are_true};
