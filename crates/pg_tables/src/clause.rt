//! Clauses over the atoms of a step, with at most six literals. This project's own.

ghost use Rattle.std.specs.Prelude.{◌≡◌, ℕ, ◌+◌, ◌<◌, ◌≤◌, ◌++◌, ◌∷◌, [], length, map, take};
ghost use Rattle.pg_assertion.specs.StepAtom.{IsStepAtom, step_number};
ghost use Rattle.pg_region.specs.Sink.{Emitted};
ghost use Rattle.pg_tables.specs.Clause.{implies, premise, in_front, AreStepAtoms, numbered, written};

use pg_assertion::{Layout, StepAtom};
use pg_region::{ClauseSink, Lit};
use std::marker::Model;

/// An atom of a step, which is meant to be true or false.
#[derive(Clone, Copy)]
pub struct StepLiteral {
    pub atom: StepAtom,
    pub positive: bool,
}

/// A clause of at most six literals.
#[derive(Drop)]
pub struct Clause {
    len: u8,
    literals: [StepLiteral; 6],
}

impl Model for Clause {
    ghost use Rattle.std.specs.Prelude.{List, take, ◌≤◌, ◌≡◌, length};
    ghost use Rattle.pg_tables.specs.declared.clause.StepLiteral.{StepLiteral};

    ghost Value = { List StepLiteral };

    ghost view = { λ c. take c.len c.literals };

    ghost invariant = { λ c. (c.len ≤ 6) × (length c.literals ≡ 6) };
}

/// How a cas goes.
#[derive(Clone, Copy)]
pub enum Case {
    Succeeds,
    Fails,
}

/// How the clauses of a table are written: by the numbers of a layout, and, under a case of a cas, each with the premise that
/// the cas goes so.
#[derive(Clone, Copy)]
pub struct Setting {
    pub layout: Layout,
    pub case: Option<Case>,
}

impl Setting {
    // The literal with its atom's number.
    fn numbered(&self, literal: &StepLiteral) -> Lit
        requires { IsStepAtom self.now.layout literal.now.atom }
        ensures { result ≡ numbered self.now.layout literal.now }
    {
        Lit::of(self.layout.step_number(&literal.atom), literal.positive)
    }

    // What stands in front of each clause, and how many literals that is.
    fn in_front(&self) -> ([Lit; 7], usize)
        ensures size { length result.0 ≡ 7 }
        ensures few { result.1 ≤ 1 }
        ensures are { take result.1 result.0 ≡ map (numbered self.now.layout) (in_front self.now.case) }
    {
        let mut lits = [Lit::of(1, true); 7];
        match self.case {
            None => (lits, 0),
            Some(case) => {
                lits[0] = self.numbered(&premise(case));
                (lits, 1)
            }
        }
    }
}

// The literal that a clause under this case begins with.
fn premise(case: Case) -> StepLiteral
    ensures { result ≡ premise case }
{
    match case {
        Case::Succeeds => StepLiteral {
            atom: StepAtom::Success,
            positive: false,
        },
        Case::Fails => StepLiteral {
            atom: StepAtom::Success,
            positive: true,
        },
    }
}

impl Clause {
    /// The clause without literals, which is never true.
    pub fn empty() -> Clause
        ensures { result ≡ [] }
    {
        Clause {
            len: 0,
            literals: [StepLiteral {
                atom: StepAtom::Success,
                positive: true,
            }; 6],
        }
    }

    /// The clause with one more literal, behind all others.
    pub fn with(self, atom: StepAtom, positive: bool) -> Clause
        requires { length self < 6 }
        ensures { result ≡ self ++ (record { atom = atom; positive = positive } ∷ []) }
    {
        let mut literals = self.literals;
        literals[usize::from(self.len)] = StepLiteral { atom, positive };
        Clause {
            len: self.len + 1,
            literals,
        }
    }

    /// Gives the clause to a sink.
    pub fn offer<S: ClauseSink>(&self, setting: &Setting, into: &mut S) -> Result<(), S::Fault>
        requires { AreStepAtoms setting.now.layout self.now }
        ensures { Emitted S.takes result (S.view into.old) (S.view into.new) (written setting.now (self.now ∷ [])) }
    {
        let (mut lits, len) = setting.in_front();
        for i in 0..usize::from(self.len) {
            lits[len + i] = setting.numbered(&self.literals[i]);
        }
        into.clause(&lits[..len + usize::from(self.len)])
    }
}

/// The clause `a & b => c | d`, by what stands on its left and on its right.
pub fn implies(left: &[StepAtom], right: &[StepAtom]) -> Clause
    requires { length left.now + length right.now ≤ 6 }
    ensures { result ≡ implies left.now right.now }
{
    let mut clause = Clause::empty();
    for atom in left {
        clause = clause.with(*atom, false);
    }
    for atom in right {
        clause = clause.with(*atom, true);
    }
    clause
}
