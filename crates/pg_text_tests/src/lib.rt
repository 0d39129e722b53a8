//! Tests of rooms and sinks, and of the layers from tokens up to names, assertions, bodies of threads and their spellings, in one crate,
//! so that each layer below is proved once and not once more for its tests. Those of outlines, states and crashes stand in
//! `pg_outline_tests`, those of regions, clauses and the decider in `pg_logic_tests`.
//!
//! A test is a table: a text, and what the layer answers, worked out by hand. What a contract says for all inputs is not tested again;
//! the tests show that the contracts mean what users expect, and that each public function that takes memory answers when there is
//! enough of it.
#![tactic(auto)]

#[cfg(test)]
mod assertions;
#[cfg(test)]
mod bodies;
#[cfg(test)]
mod names;
#[cfg(test)]
mod rooms;
#[cfg(test)]
mod spellings;
#[cfg(test)]
mod tokens;
