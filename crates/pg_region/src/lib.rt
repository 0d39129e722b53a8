//! Clauses in one region of words, which is taken once and never grows.
//!
//! What this crate promises the layers above: a literal is its atom's number and a sign, in one word; a region is a stack of
//! clauses with spare words and spare spans, to which a clause is appended exactly where it fits, and which is cut back to any
//! earlier length; a sink takes clauses one by one, and an emitter that was stopped has left a prefix of its clauses; and a
//! reader lends the clauses of one obligation and counts each look at one. Only `Region::make` takes memory.
#![tactic(auto)]

mod literal;
mod range;
mod reader;
mod region;
mod sink;

pub use literal::Lit;
pub use range::{ClauseRange, Loaded};
pub use reader::ClauseReader;
pub use region::{ClauseId, Full, Mark, Region};
pub use sink::ClauseSink;
