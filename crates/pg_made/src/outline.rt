//! The made outline.

ghost use Rattle.std.specs.Prelude.{◌≡◌, ◌≤◌, [], ◌∷◌, map, None, IfOk};
ghost use Rattle.pg_assertion.specs.Formula.{plain, with_atoms, neg, atom};
ghost use Rattle.pg_assertion.specs.Atom.{raw_of};
ghost use Rattle.pg_outline.specs.Outline.{Draft, IsDraft, draft_of};
ghost use Rattle.pg_outline.specs.Fault.{first_fault};
ghost use Rattle.pg_outline_text.specs.SpellingLaws.{IsWritableOutline};
ghost use Rattle.pg_made.specs.Limits.{most_statements};
ghost use Rattle.pg_made.specs.Made as spec;

use crate::program::{X, Y, made_program};
use pg_assertion::{CrashAtom, Formula, RawAtom};
use pg_outline::{Outline, OutlineFault};
use pg_program::{Program, beside};
use std::alloc::{AllocError, Global};

/// The most statements that each thread of a made outline has.
pub const MOST_STATEMENTS: u32 = 15;

/// The made outline of n statements for each thread. It has `4 + 2n(n + 3)` obligations.
pub fn made(alloc: Global, n: u32) -> Result<Outline, AllocError>
    requires from { 1 ≤ n }
    requires to { n ≤ most_statements }
    ensures outline { IfOk result (λ o. o ≡ spec.made_outline n) }
    ensures writable { IsWritableOutline (spec.made_outline n) }
{
    of_parts(alloc, n)
}

/// The outline, made of its program and its formulas.
fn of_parts(alloc: Global, n: u32) -> Result<Outline, AllocError>
    requires { n ≤ most_statements }
    ensures { IfOk result (λ o. o ≡ spec.made_outline n) }
{
    let crash = crash_formula(alloc)?;
    let (crash, pre) = beside(crash, pre(alloc))?;
    let ((crash, pre), notes) = beside((crash, pre), notes(alloc, n))?;
    let (((crash, pre), notes), program) = beside(((crash, pre), notes), made_program(alloc, n))?;
    let outline = outlined(alloc, program, pre, crash, notes)?;
    Ok(outline)
}

/// The outline of a program and formulas that have no fault.
fn outlined(
    alloc: Global,
    program: Program,
    pre: Formula<RawAtom>,
    crash: Formula<CrashAtom>,
    notes: Vec<Vec<Formula<RawAtom>>>,
) -> Result<Outline, AllocError>
    requires { let draft : Draft = record { program = program; pre = plain pre; crash = plain crash; notes = map (λ t. map plain t.items) notes.items } in
        IsDraft draft × (first_fault draft ≡ None) }
    ensures { let draft : Draft = record { program = program; pre = plain pre; crash = plain crash; notes = map (λ t. map plain t.items) notes.items } in
        IfOk result (λ o. draft_of o ≡ draft) }
{
    match Outline::build(alloc, program, pre, crash, notes) {
        Ok(outline) => Ok(outline),
        Err(fault) => match fault {
            OutlineFault::NoMemory => Err(AllocError),
            _ => unreachable!(),
        },
    }
}

/// The precondition.
#[tactic(auto, unfolding(pg_assertion::specs::Formula::with_atoms))]
fn pre(alloc: Global) -> Result<Formula<RawAtom>, AllocError>
    ensures { IfOk result (λ f. plain f ≡ with_atoms raw_of spec.pre) }
{
    may_not_persist(alloc, Y, 1)
}

/// The crash formula.
fn crash_formula(alloc: Global) -> Result<Formula<CrashAtom>, AllocError>
    ensures { IfOk result (λ f. plain f ≡ spec.crash_formula) }
{
    let after = Formula::Atom(CrashAtom::Location { x: Y, v: 1 });
    let before = Formula::Atom(CrashAtom::Location { x: X, v: 1 });
    Formula::implies(alloc, after, before)
}

/// The assertions of both threads.
fn notes(alloc: Global, n: u32) -> Result<Vec<Vec<Formula<RawAtom>>>, AllocError>
    requires { n ≤ most_statements }
    ensures { IfOk result (λ ts. map (λ t. map plain t.items) ts.items ≡ map (map (with_atoms raw_of)) (spec.notes 1 n ∷ spec.notes 2 n ∷ [])) }
{
    let mut notes = Vec::new(alloc);
    notes.push(thread_notes(alloc, 1, n)?)?;
    notes.push(thread_notes(alloc, 2, n)?)?;
    Ok(notes)
}

/// The assertions of a thread: one for each point, its end too.
fn thread_notes(alloc: Global, t: u32, n: u32) -> Result<Vec<Formula<RawAtom>>, AllocError>
    requires { n ≤ most_statements }
    ensures { IfOk result (λ fs. map plain fs.items ≡ map (with_atoms raw_of) (spec.notes t n)) }
{
    let mut notes = Vec::new(alloc);
    'points: for k in 1..n + 2 {
        let assertion = note(alloc, t, k)?;
        notes.push(assertion)?;
    }
    Ok(notes)
}

/// The assertion at a point.
#[tactic(auto, unfolding(pg_assertion::specs::Formula::with_atoms))]
fn note(alloc: Global, t: u32, k: u32) -> Result<Formula<RawAtom>, AllocError>
    ensures { IfOk result (λ f. plain f ≡ with_atoms raw_of (spec.note t k)) }
{
    match k {
        1 => Ok(Formula::True),
        2 => Formula::not(alloc, Formula::Atom(RawAtom::Read { t, x: X, v: 0 })),
        _ => may_not_persist(alloc, X, 0),
    }
}

/// That a value may not persist in a location.
fn may_not_persist(alloc: Global, x: u8, v: u32) -> Result<Formula<RawAtom>, AllocError>
    ensures { IfOk result (λ f. plain f ≡ neg (atom (RawAtom.Persist x v))) }
{
    Formula::not(alloc, Formula::Atom(RawAtom::Persist { x, v }))
}
