//! Checks the trees of a derivation.
//!
//! What this crate promises the layers above: a tree of splits and leaves is valid for clauses by a definition that knows no
//! checker, and `check_tree` answers Ok exactly for the lines of a valid tree, else the first fault of the lines. It takes no
//! memory: `Trail::make` takes it, once for all obligations. Where clauses have a valid tree, no assignment satisfies them; and
//! what is written for the log of a closed tree, with clauses that close each of its leaves, is valid (`laws`).
#![tactic(auto)]

mod check;
mod fault;
pub mod laws;
mod path;
mod trail;
mod unit;

pub use check::check_tree;
pub use fault::TreeFault;
pub use trail::Trail;
