//! Tables of clauses over the atoms of a step.
//!
//! What this crate promises the layers above: clauses are written over atoms, not numbers, as `a & b => c | d`; a table is put
//! together from rows by "for each thread, location, value or scalar", "and then", "where" and "under a cas that succeeds, or that
//! fails"; `offer` gives a sink exactly the clauses that the written table has, in its order and by their numbers, and where the
//! sink's fault stops it, the clauses before that one. So an emitter is its table, and owes no proof of its own. For each of these
//! words there is a lemma that tells when a table is true in a valuation, and one that tells how many clauses and literals it has
//! at most. No call takes memory.
#![tactic(auto)]

mod clause;
mod one_value;
mod shapes;
mod steps;
mod table;

pub use clause::{Case, Clause, Setting, StepLiteral, implies};
pub use one_value::{ExactlyOne, HasValues};
pub use shapes::{
    after, always, becomes, becomes_both, before, frame, gains, gains_both, never, on, only_where,
    row_shapes_are_true,
};
pub use steps::same_line;
pub use table::{
    PerLocation, PerScalar, PerThread, PerValue, Rows, Then, Under, When, WhereDifferent,
    WhereLess, each, offer,
};
