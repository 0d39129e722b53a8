//! The rules of statements are sound.
//!
//! What this crate promises the layers above: each clause of the access rules and of the persistency rules of a step is true of every
//! step of the machine through it, from every well-formed state. It has no code of its own, but laws.
#![tactic(auto)]

mod laws;
mod persist;

pub use laws::access_rules_are_true;
pub use persist::persist_rules_are_true;
