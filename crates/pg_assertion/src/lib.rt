//! Assertions: atoms, formulas and crash formulas, the expansion of a crash formula, and the numbers of atoms.
//!
//! What this crate promises the layers above: contracts see a formula as plain data; `expand` gives the expansion
//! of a crash formula, or tells how many nodes it would have; a `Layout` numbers the atoms of a side from 1 without
//! a gap, finds the atom of each number, and numbers the atoms of a step on from those of its two sides.
#![tactic(auto)]

mod atom;
mod expansion;
mod formula;
mod layout;
mod step_atom;

pub use atom::{CrashAtom, RawAtom, ViewAtom};
pub use expansion::{
    ExpandFault, MAX_EXPANSION_NODES, expand, expansions_have_their_size, named_count,
    vectors_are_the_choices,
};
pub use formula::Formula;
pub use layout::{
    Layout, MAX_ATOMS, Numbering, Side, atoms_are_counted, atoms_stand_in_order,
    numbers_have_no_gap, numbers_tell_atoms_apart, numbers_tell_sides_apart, places_are_numbers,
};
pub use step_atom::{StepAtom, step_numbers_have_no_gap, step_numbers_tell_atoms_apart};
