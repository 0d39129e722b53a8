//! Judgements: whether every proof obligation of an outline follows.
//!
//! What this crate promises the layers above: `check` answers the outcome of an outline under a budget of nodes
//! (`specs/Outcome.antt`), by the plain trees of the clauses of its obligations, one obligation after the other; an outline has one
//! outcome. Where it is accepted each obligation follows, the outline is safe, and it has executions; where it is rejected the
//! truths of the answer make each clause of the obligation true, and so it does not follow (`specs/Laws.antt`). `check` takes all
//! memory before the first obligation, and decides all of them on one region; no clause says that. `bench` has what obligations are
//! decided with, for those who go through them themselves.
#![tactic(auto)]

pub mod bench;
mod judgement;
mod judging;
mod laws;

pub use judgement::Judgement;
pub use judging::{MAX_BUDGET, check};
pub use laws::{an_outline_has_one_outcome, outcomes_are_true};
