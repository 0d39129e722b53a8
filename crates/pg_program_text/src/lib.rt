//! Texts of threads: reading the body of a thread, with a note at each point, from a lexer, and printing it in its canonical
//! text.
//!
//! What the crate promises the layer above: `parse_thread` gives the body that the grammar (`specs/Grammar.antt`) has at the
//! lexer's place, no more and no less, and the lexer stands after it then. Where there is none, the answer is the first fault
//! of the text, and the lexer stays where it stood. `print_thread` appends the canonical text (`specs/Spelling.antt`), a line for
//! each note and each statement; want of memory leaves the text as it was, and reading what was printed gives the thread again.
//! The laws in `laws` say of the definitions that a place of a text has one body at most, and that the canonical text is in the
//! grammar and is read again wherever it stands; and that each body that stands in a text is within the limits that reading
//! again asks for, so that whatever was read can be printed and read again. A `ThreadText` holds the statements, blocks nested in
//! them, and apart from them the notes of the points in the order of the text.
#![tactic(auto)]

mod expr;
mod keyword;
pub mod laws;
mod print;
mod stmt;
mod thread;

pub use print::print_thread;
pub use stmt::{MAX_ASSIGNMENTS, MAX_EXPR_NODES, MAX_EXPR_OPEN};
pub use thread::{MAX_BLOCKS, MAX_POINTS, ThreadText, parse_thread};
