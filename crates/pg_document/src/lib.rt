//! Documents that are read beside an outline: derivations and schedules.
//!
//! What this crate promises the layers above: the faults that texts of such documents have, each with its place.
#![tactic(auto)]

mod fault;

pub use fault::DocFault;
