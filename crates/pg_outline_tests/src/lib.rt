//! Tests of the layers from programs and outlines up to states and their crashes, in one crate, so that each layer below is proved once
//! and not once more for its tests.
//!
//! Programs, assertions and outlines are written as texts of outlines, and read. As in `pg_text_tests`, a test is a table that was worked
//! out by hand. What a contract says for all inputs is not tested again.
#![tactic(auto)]

#[cfg(test)]
mod lines;
#[cfg(test)]
mod meanings;
#[cfg(test)]
mod numbering;
#[cfg(test)]
mod outlines;
#[cfg(test)]
mod programs;
#[cfg(test)]
mod steps;
