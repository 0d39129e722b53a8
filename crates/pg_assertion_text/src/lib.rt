//! Texts of formulas: reading them from a lexer, and printing them in their canonical spelling.
//!
//! What the crate promises the layer above: `parse_formula` and `parse_crash` give the formula that the grammar
//! (`specs/Grammar.antt`) has at the lexer's place, no more and no less, and the lexer stands after it then. The token
//! after the formula is read only so far as to see that no formula goes on with it. Where there is no formula, the
//! answer is the first fault of the text, and the lexer stays where it stood. `print_formula` and `print_crash` append the
//! canonical spelling (`specs/Spelling.antt`), with brackets just where the formula would be read otherwise; want of
//! memory leaves the text as it was, and reading what was printed gives the formula again. The laws in `laws` say of the
//! definitions that a place of a text has one reading at most, and that a spelling is in the grammar and is read again
//! wherever it stands; and that each formula that stands in a text is within the limits that reading again asks for, so
//! that whatever was read can be printed and read again. Readers of other phrases are made of `Tokens`, a place in a text
//! with how many nodes may still come, and its steps; each step answers by a definition in `specs/Input.antt`.
#![tactic(auto)]

mod atoms;
mod formula;
pub mod laws;
mod parse;
mod print;
pub mod tokens;

pub use atoms::ReadAtom;
pub use parse::{MAX_NODES, MAX_OPEN, parse_crash, parse_formula};
pub use print::{print_crash, print_formula};
pub use tokens::Tokens;
