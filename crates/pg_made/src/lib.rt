//! The made outline: one that can be made as long as wanted, to try the checker out without a file.
//!
//! What the crate promises the layer above: `made` gives exactly the made outline of n statements for each of its two threads
//! (`specs/Made.antt`), which keeps the limits of a text, so that it can be printed and read again. Only want of memory refuses it.
#![tactic(auto)]

mod outline;
mod program;

pub use outline::{MOST_STATEMENTS, made};
