//! The clauses of obligations, on a region in layers.
//!
//! What this crate promises the layers above: the clauses of an obligation of an outline are those of `specs/Clauses.antt`, in that
//! order, and an obligation follows exactly where no assignment makes each of them true (`specs/Decide.antt`). A `Loader` lays the
//! clauses of one obligation after the other on a region: the axioms once, the rules of a step until another step comes, and the top
//! part of one obligation last (`specs/Layers.antt`); and it tells how much room is enough for any of them (`specs/Needs.antt`). No
//! call takes memory.
#![tactic(auto)]

mod atoms;
mod fresh_state;
mod laws;
mod layers;
mod loader;
mod obligation;
mod top;

pub use laws::clauses_decide_obligations;
pub use loader::{Loader, RegionNeeds};
