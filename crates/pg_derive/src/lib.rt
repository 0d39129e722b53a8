//! Derivations of outlines: what shows that each obligation follows, written and checked.
//!
//! What this crate promises the layers above: `derive` judges an outline as `pg_judge::check` does, and puts its derivation on a sink
//! as it goes: for each obligation that is closed the plain tree, with clauses that close each leaf (`specs/Derived.antt`). `verify`
//! answers of a derivation whether it has one tree for each obligation, and no other, and each is valid for its own obligation; else
//! the first tree that is not, or that is missing or too much (`specs/Verified.antt`). It searches for nothing. Where it answers Ok
//! each obligation follows by its tree alone, and so the outline is safe; and what `derive` writes of an outline that is accepted
//! is read as a derivation, of which `verify` answers Ok (`specs/Laws.antt`).
#![tactic(auto)]

mod checking;
mod desk;
mod fault;
pub mod laws;
mod lines;
mod tree;
mod writing;

pub use checking::verify;
pub use fault::{DeriveFault, VerifyFault};
pub use writing::derive;
