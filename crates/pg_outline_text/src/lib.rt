//! Whole texts of outlines: reading one, and printing an outline in its canonical text.
//!
//! What the crate promises the layer above: `parse_outline` gives the outline that a text stands for (`specs/Text.antt`, over the
//! grammar of `specs/Grammar.antt`), and exactly that one; a text that stands for none is refused with its first fault
//! (`specs/Fault.antt`): of its tokens or its version in the order of the text, then of the program, then of the outline.
//! What a text stands for is of version 1. `print_outline` gives the canonical text, by `specs/Spelling.antt`, of an outline of that
//! version, which stands for the outline again. The laws in `laws` say that a text stands for one outline at most, and then has no
//! fault; and that a text without a fault is one of the grammar, of which an outline can be made. Those in `print_laws` say that the
//! canonical text of an outline within the limits of a text stands for it, and that each outline which a text stands for is within
//! them.
#![tactic(auto)]

mod declaration;
mod fault;
mod given;
pub mod laws;
mod parse;
mod print;
pub mod print_laws;
mod source;
mod thread;
mod word;

pub use fault::FileFault;
pub use parse::parse_outline;
pub use print::print_outline;
pub use source::VERSION;
pub use thread::MAX_THREADS;
