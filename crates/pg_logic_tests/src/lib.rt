//! Tests of the layers from regions of clauses up to the loading and deciding of obligations, in one crate, so that each layer below is
//! proved once and not once more for its tests.
//!
//! As in `pg_text_tests`, a test is a table that was worked out by hand. What a contract says for all inputs is not tested again.
#![tactic(auto)]

#[cfg(test)]
mod access;
#[cfg(test)]
mod axioms;
#[cfg(test)]
mod decider;
#[cfg(test)]
mod given;
#[cfg(test)]
mod loads;
#[cfg(test)]
mod obligations;
#[cfg(test)]
mod persist;
#[cfg(test)]
mod regions;
#[cfg(test)]
mod steps;
