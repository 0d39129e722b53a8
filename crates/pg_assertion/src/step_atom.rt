//! The atoms that a step of a program is judged by, and their numbers. They are those of its two sides and, numbered on
//! from these, what the step itself does: which value it stores or assigns, which value its cas expects, whether the cas
//! succeeds, and whether its test holds. This project's own.

ghost use Rattle.std.specs.Prelude.{◌≡◌, ℕ, ◌*◌, ◌≤◌};
ghost use Rattle.pg_assertion.specs.Layout.{atoms};
ghost use Rattle.pg_assertion.specs.Limits.{most_atoms, most_step_atoms};
ghost use Rattle.pg_assertion.specs.StepAtom.{IsStepAtom, step_number, step_atoms, StepNumbersTellAtomsApart, StepNumbersHaveNoGap};

use crate::atom::ViewAtom;
use crate::layout::{Layout, Numbering, Side};

/// An atom of a step. The letter in front of each is the one of its spelling where atoms are printed.
#[derive(Clone, Copy)]
pub enum StepAtom {
    /// An atom of an assertion, before the step or after it.
    On { atom: ViewAtom, side: Side },
    /// `K(v)`: what the step stores or assigns has the value `v`.
    Value { v: u8 },
    /// `E(v)`: what the cas expects has the value `v`.
    Expected { v: u8 },
    /// `S`: the cas succeeds.
    Success,
    /// `T`: the test holds.
    Taken,
}

impl Layout {
    /// The number of an atom of a step, from 1. With `n` atoms a side and `D` values the atoms before the step have 1 to
    /// `n`, those after it `n + 1` to `2n`, then come the `D` atoms `K`, the `D` atoms `E`, `S` and `T`.
    pub fn step_number(&self, a: &StepAtom) -> u32
        requires { IsStepAtom self.now a.now }
        ensures number { result ≡ step_number self.now a.now }
        ensures within { (1 ≤ result) × (result ≤ step_atoms self.now) }
        ensures few { result ≤ most_step_atoms }
    {
        let both_sides = self.both_sides();
        let domain = self.domain();
        match *a {
            StepAtom::On { atom, side } => self.number_at(&atom, side),
            StepAtom::Value { v } => both_sides + 1 + u32::from(v),
            StepAtom::Expected { v } => both_sides + domain + 1 + u32::from(v),
            StepAtom::Success => both_sides + 2 * domain + 1,
            StepAtom::Taken => both_sides + 2 * domain + 2,
        }
    }

    /// How many atoms a step has.
    pub fn step_atoms(&self) -> u32
        ensures count { result ≡ step_atoms self.now }
        ensures few { result ≤ most_step_atoms }
    {
        self.both_sides() + 2 * self.domain() + 2
    }

    fn both_sides(&self) -> u32
        ensures count { result ≡ 2 * atoms self.now }
        ensures few { result ≤ 2 * most_atoms }
    {
        2 * self.atoms()
    }
}

// What holds of these numbers, for each count of values, scalars, locations and threads. No function below does
// anything: its contract is the law.

/// No two atoms of a step have one number.
pub fn step_numbers_tell_atoms_apart()
    ensures { StepNumbersTellAtomsApart }
{}

/// Each atom of a step has a number from 1 to their count, and each of these is the number of an atom.
pub fn step_numbers_have_no_gap()
    ensures { StepNumbersHaveNoGap }
{}
