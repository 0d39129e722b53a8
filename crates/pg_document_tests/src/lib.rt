//! Tests of the layers that go by texts beside the outline: derivations and their trees, schedules and their replays, and made outlines.
//!
//! As in `pg_text_tests`, a test is a table that was worked out by hand. What a contract says for all inputs is not tested again.
#![tactic(auto)]

#[cfg(test)]
mod derivations;
#[cfg(test)]
mod derived;
#[cfg(test)]
mod made;
#[cfg(test)]
mod outlines;
#[cfg(test)]
mod replays;
#[cfg(test)]
mod schedules;
#[cfg(test)]
mod trees;
