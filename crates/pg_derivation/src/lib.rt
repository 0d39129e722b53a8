//! Derivations: a tree for each obligation of an outline, and their text.
//!
//! What this crate promises the layers above: `parse_derivation` answers with the trees that a text says, its lines numbered as they
//! stand in it, or with its first fault (`specs/Fault.antt`); by the laws a text has no fault exactly where it is the one spelling of its
//! trees (`specs/Text.antt`). `print_derivation` gives that spelling, and each line of it is to be had by itself. A tree is lent as the
//! list of its lines. Whether a tree is right is not asked here.
#![tactic(auto)]

mod derivation;
mod kept;
mod laws;
mod lines;
mod parse;
mod place;
mod print;
mod words;

pub use derivation::{Derivation, DocNode, TreeView};
pub use laws::{spelled_texts_have_no_fault, texts_without_a_fault_are_spelled};
pub use lines::{append_end, append_header, append_leaf, append_obligation, append_split};
pub use parse::parse_derivation;
pub use print::print_derivation;
