//! Schedules: the steps of one execution and the crashes that are tried along it, and their text.
//!
//! What the crate promises the layer above: `parse_schedule` gives the schedule that a text stands for, or the first fault of the
//! text (`specs/Reading.antt`, over the words of each line, `specs/Words.antt`). `print_schedule` gives the canonical text of a
//! schedule (`specs/Printing.antt`), which stands for the same acts, each on its line of that text. A `Schedule` lends its acts one
//! by one.
#![tactic(auto)]

mod lines;
mod number;
mod parse;
mod print;
mod schedule;
mod words;

pub use parse::parse_schedule;
pub use print::print_schedule;
pub use schedule::{Schedule, ScheduleAct};
