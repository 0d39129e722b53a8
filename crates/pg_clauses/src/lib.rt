//! Definitional clauses: formulas as clauses, with an atom of its own for each connective.
//!
//! What this crate promises the layers above: `clausify` gives a sink exactly the definitional clauses of a formula
//! (`specs/Definitional.antt`), over any numbering of its atoms, and tells the literal that stands for the formula. Where the
//! clauses are true that literal is true just where the formula is; and every valuation can be extended to the new atoms so that
//! they are (`specs/Truth.antt`). No call takes memory.
#![tactic(auto)]

mod definitional;
mod fresh;
mod laws;
mod node;

pub use definitional::clausify;
pub use fresh::Fresh;
pub use laws::{definitions_can_be_met, definitions_tell_the_truth};
