//! Proof obligations of an outline.
//!
//! What this crate promises the layers above: an outline has the obligations of `specs/Obligations.antt`, in that order, and
//! `count` and `shape` tell how many these are and which one has a number, without a list of them. Predicates of states that
//! each step keeps, as obligations say, hold along every execution (`specs/Kept.antt`); and so an outline whose assertions are kept
//! is safe (`specs/Safe.antt`). `specs/Follow.antt` says what each obligation says and when it follows; where all of them follow by
//! rules that are true, the outline is safe. And erasure only forgets the auxiliaries of executions (`specs/Forgotten.antt`). No
//! call takes memory.
#![tactic(auto)]

mod count;
mod laws;
mod obligation;
mod obligations;
mod place;

pub use laws::{
    all_follow_is_safe, erasure_forgets_auxiliaries, kept_assertions_are_safe,
    kept_claims_hold_along,
};
pub use obligation::Obligation;
pub use obligations::Obligations;
