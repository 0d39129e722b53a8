//! Outlines: a program with an assertion at each point, a precondition and a crash formula, and the erasure of its auxiliaries.
//!
//! What this crate promises the layers above: `Outline::build` makes an outline exactly of parts without a fault, and of others
//! it tells the first one (`specs/Fault.antt`): a value outside the domain or a thread that is not there, in the order of the
//! text, and then a crash formula that names too many locations or whose expansion is too large. An outline gives back what it
//! was made of, with the expansion of its crash formula. `assertion_over` makes an assertion over a program of any other formula
//! that was read, exactly as `build` does. `erase` gives its program without auxiliaries (`specs/Erasure.antt`).
#![tactic(auto)]

mod erasure;
mod fault;
pub mod laws;
mod outline;
mod view;

pub use erasure::erase;
pub use fault::OutlineFault;
pub use outline::{MAX_CRASH_LOCATIONS, Outline};
pub use view::assertion_over;
