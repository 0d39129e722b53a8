//! The access rules of a step, as clauses.
//!
//! What this crate promises the layers above: `access_rules` gives a sink exactly the clauses of the access rules of a step of a
//! program, in their order: what its expressions say, its scalars, the assignments of its bracket, and then the atoms of memory
//! that loads, stores and fences change; and no step has more of them, and no more literals in them, than the limits of either
//! version of the language allow. No call takes memory. That the rules are true is not proved here.
#![tactic(auto)]

mod atoms;
mod cas;
mod emitter;
mod fence;
mod laws;
mod load;
mod shape;
mod store;
mod tuples;
mod values;

pub use emitter::access_rules;
pub use laws::access_rules_are_counted;
