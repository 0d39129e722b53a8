//! Programs: the declared names, the statements of each thread, and the program that is built of them.
//!
//! What this crate promises the layers above: a table of names is two ordered lists, one of locations and one
//! of scalars, in which no name stands twice, and `declare` and `find` are theirs; a program is built exactly of
//! names and threads without a fault, and for others the answer is the first fault; a program that was built gives back
//! its names, the statement at each of its points, and the steps from it; and expressions and tests have their
//! values modulo the size of the domain.
#![tactic(auto)]

mod block;
mod clause;
mod expr;
mod fault;
mod graph;
pub mod laws;
mod name_table;
mod pairs;
mod point;
mod sought;
mod syntax;
mod words;

pub use block::{first_within, second_within};
pub use expr::{eval, holds_cond};
pub use fault::ProgramFault;
pub use graph::{Program, is_test, store_of};
pub use name_table::{
    DeclareFault, MAX_LOCATIONS, MAX_LOCATIONS_2, MAX_SCALARS, NameKind, NameRef, Names, ScalarKind,
};
pub use pairs::beside;
pub use point::{Branch, PointId, Step};
pub use syntax::{Act, AuxAssign, Cond, Expr, Stmt};
