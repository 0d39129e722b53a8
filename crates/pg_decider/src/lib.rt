//! Whether clauses can be satisfied, by the plain tree: unit propagation with watched literals, and splits.
//!
//! What this crate promises the layers above: `Workspace::decide` answers as a tree says that is defined without any order of
//! work. It visits exactly the nodes of that tree up to the first model, and answers that its budget is spent exactly where these
//! are more. After a closed tree its log is the tree in preorder; after a model each clause has a true literal. It looks at clauses
//! no more often than watched literals need. `Workspace::leaf` gives clauses that close a leaf of a closed tree. Neither takes memory:
//! `Workspace::make` and `TreeLog::make` take it.
#![tactic(auto)]

mod attach;
mod chains;
pub mod laws;
mod leaf;
mod log;
mod search;
mod settle;
mod split;
mod trail;
mod verdict;
mod walk;
mod watches;
mod workspace;

pub use log::{TreeLog, TreeNode};
pub use verdict::Verdict;
pub use workspace::Workspace;
