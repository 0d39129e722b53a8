//! What the tests of the layers share: outlines and threads that are read from texts, programs of declared names, and the comparison of what was found with what is
//! wanted. It promises nothing to the program; it stands apart so that it is proved once, and the crates of tests beside one another.
#![tactic(auto)]

mod programs;
mod texts;

pub use programs::{Parts, on_program};
pub use texts::{Pieces, agree, between, fault_of, lexer_of, on, repeated, thread};
