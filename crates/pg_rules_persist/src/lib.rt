//! The persistency rules of a step, as clauses.
//!
//! What this crate promises the layers above: `persist_rules` gives a sink exactly the clauses of the persistency rules of a step of
//! a program, in their order: for each location and value whether a crash may leave it there, and whether it may once a thread has
//! fenced. Flushes act on cache lines, and fences commit each line. A law says how many clauses and literals there are at most. No call
//! takes memory.
#![tactic(auto)]

mod atoms;
mod emitter;
mod laws;
mod rows;
mod shape;

pub use emitter::persist_rules;
pub use laws::persist_rules_are_counted;
