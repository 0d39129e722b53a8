//! What there is to prove.

use pg_program::{PointId, Step};

/// A proof obligation of an outline. All but the first three are of a step of the program: before it the assertion at the step's
/// point and the crash formula's expansion are given. The kinds are after Owicki and Gries; that of crashes is after *Pierogi*.
#[derive(Clone, Copy)]
pub enum Obligation {
    /// The fresh state meets the precondition.
    Fresh,
    /// The precondition gives the assertion at the first point of this thread.
    Entry(u8),
    /// The precondition gives the crash formula.
    EntryCrash,
    /// After the step the assertion at the point that it leads to holds.
    Local(Step),
    /// After the step the crash formula holds.
    Crash(Step),
    /// After the step the assertion at this point of another thread still holds, where it held before.
    Interfere(Step, PointId),
}
