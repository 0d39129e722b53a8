//! The formulas of a text, made formulas over a program's values and threads.

ghost use Rattle.std.specs.Prelude.{◌≡◌, ◌≤◌, length, map, unwrap_or, IfOk};
ghost use Rattle.pg_program.specs.Limits.{largest_domain_2, most_threads};
ghost use Rattle.pg_assertion.specs.Formula.{plain, with_atoms, AllAtoms};
ghost use Rattle.pg_assertion.specs.Atom.{raw_of, RawDeclared};
ghost use Rattle.pg_outline.specs.Fault.{value_fault, thread_fault, atom_fault, crash_atom_fault, in_formula, first_in, assertion_fault};
ghost use Rattle.pg_outline.specs.Numbers.{numbers_of, renumbered, fault_if};
ghost use Rattle.pg_outline.specs.Made.{Makes, Checks};
ghost use Rattle.pg_outline.specs.Speaks.{IsOver};

use crate::fault::OutlineFault;
use pg_assertion::{CrashAtom, Formula, RawAtom, ViewAtom};
use pg_program::{Program, beside};
use sqlite_items::Boxed;
use std::alloc::Global;

/// What atoms may speak of: the values below the size of the domain, and the threads from 1.
#[derive(Clone, Copy)]
pub struct Scope {
    pub domain: u32,
    pub threads: u8,
}

impl Scope {
    /// The values and the threads of a program.
    pub fn of(program: &Program) -> Scope
        ensures domain { result.domain ≡ program.now.names.domain }
        ensures threads { result.threads ≡ length program.now.threads }
        ensures small { (result.domain ≤ largest_domain_2) × (result.threads ≤ most_threads) }
    {
        Scope {
            domain: program.names().domain(),
            threads: program.threads(),
        }
    }

    fn value(self, v: u32) -> Result<u8, OutlineFault>
        requires { self.domain ≤ largest_domain_2 }
        ensures { Makes (λ k. k) v (value_fault self.domain v) result }
    {
        if v < self.domain {
            Ok(v as u8)
        } else {
            Err(OutlineFault::ValueOutOfDomain(v))
        }
    }

    fn thread(self, t: u32) -> Result<u8, OutlineFault>
        requires { self.threads ≤ most_threads }
        ensures { Makes (λ k. k) t (thread_fault self.threads t) result }
    {
        if t >= 1 && t <= u32::from(self.threads) {
            Ok(t as u8)
        } else {
            Err(OutlineFault::UnknownThread(t))
        }
    }

    fn value_if(self, v: Option<u32>) -> Result<u8, OutlineFault>
        requires { self.domain ≤ largest_domain_2 }
        ensures { Makes (λ k. k) (unwrap_or v 0) (fault_if (value_fault self.domain) v) result }
    {
        match v {
            Some(v) => self.value(v),
            None => Ok(0),
        }
    }

    fn thread_if(self, t: Option<u32>) -> Result<u8, OutlineFault>
        requires { self.threads ≤ most_threads }
        ensures { Makes (λ k. k) (unwrap_or t 0) (fault_if (thread_fault self.threads) t) result }
    {
        match t {
            Some(t) => self.thread(t),
            None => Ok(0),
        }
    }
}

/// The numbers of an atom that may have a fault, from left to right: its thread and its values.
#[derive(Clone, Copy)]
struct Numbers {
    thread: Option<u32>,
    value: Option<u32>,
    other: Option<u32>,
}

/// An atom of an assertion. A number that it lacks is 0.
fn viewed_atom(scope: Scope, atom: RawAtom) -> Result<ViewAtom, OutlineFault>
    requires { (scope.domain ≤ largest_domain_2) × (scope.threads ≤ most_threads) }
    ensures { Makes raw_of atom (atom_fault scope.domain scope.threads atom) result }
{
    let numbers = numbers_of(atom);
    let t = scope.thread_if(numbers.thread)?;
    let v = scope.value_if(numbers.value)?;
    let w = scope.value_if(numbers.other)?;
    Ok(placed(atom, t, v, w))
}

fn numbers_of(atom: RawAtom) -> Numbers
    ensures { result ≡ numbers_of atom }
{
    let (thread, value, other) = match atom {
        RawAtom::Scalar { k, .. } => (None, Some(k), None),
        RawAtom::Last { v, .. } => (None, Some(v), None),
        RawAtom::Read { t, v, .. } => (Some(t), Some(v), None),
        RawAtom::Persist { v, .. } => (None, Some(v), None),
        RawAtom::Async { t, v, .. } => (Some(t), Some(v), None),
        RawAtom::Then { t, v, w, .. } => (Some(t), Some(v), Some(w)),
        RawAtom::Newest { t, .. } => (Some(t), None, None),
        RawAtom::Ordered { t, .. } => (Some(t), None, None),
        RawAtom::Fenced { t, .. } => (Some(t), None, None),
    };
    Numbers {
        thread,
        value,
        other,
    }
}

/// The atom with these numbers, of which each kind takes those that it has.
fn placed(atom: RawAtom, t: u8, v: u8, w: u8) -> ViewAtom
    ensures { raw_of result ≡ renumbered atom t v w }
{
    match atom {
        RawAtom::Scalar { r, .. } => ViewAtom::Scalar { r, k: v },
        RawAtom::Last { x, .. } => ViewAtom::Last { x, v },
        RawAtom::Read { x, .. } => ViewAtom::Read { t, x, v },
        RawAtom::Persist { x, .. } => ViewAtom::Persist { x, v },
        RawAtom::Async { x, .. } => ViewAtom::Async { t, x, v },
        RawAtom::Then { x, y, .. } => ViewAtom::Then { t, x, v, y, w },
        RawAtom::Newest { x, .. } => ViewAtom::Newest { t, x },
        RawAtom::Ordered { x, .. } => ViewAtom::Ordered { t, x },
        RawAtom::Fenced { x, .. } => ViewAtom::Fenced { t, x },
    }
}

/// The assertion over a program that a formula, as a text has it, is: the same formula, with its values and threads in the types that
/// a state has them in. `Outline::build` makes those of an outline so. A value outside the domain or a thread that the program does
/// not have is refused, and of several the first one in the order of the text. It takes memory for each connective.
///
/// Whether its names are declared is not tested, since a formula that was read over the names of the program speaks of no others.
pub fn assertion_over(
    alloc: Global,
    program: &Program,
    f: &Formula<RawAtom>,
) -> Result<Formula<ViewAtom>, OutlineFault>
    ensures made { Makes (λ g. with_atoms raw_of (plain g)) (plain f.now) (assertion_fault program.now (plain f.now)) result }
    ensures speaks { AllAtoms (RawDeclared program.now.names) (plain f.now) → IfOk result (λ g. IsOver program.now (plain g)) }
{
    viewed(alloc, Scope::of(program), f)
}

/// An assertion.
#[cycle(viewed)]
#[tactic(auto, unfolding(pg_assertion::specs::Formula::with_atoms))]
pub fn viewed(
    alloc: Global,
    scope: Scope,
    f: &Formula<RawAtom>,
) -> Result<Formula<ViewAtom>, OutlineFault>
    requires { (scope.domain ≤ largest_domain_2) × (scope.threads ≤ most_threads) }
    ensures { Makes (λ g. with_atoms raw_of (plain g)) (plain f.now) (in_formula (atom_fault scope.domain scope.threads) (plain f.now)) result }
{
    match f {
        Formula::True => Ok(Formula::True),
        Formula::False => Ok(Formula::False),
        Formula::Atom(atom) => Ok(Formula::Atom(viewed_atom(scope, *atom)?)),
        Formula::Not(f) => Ok(Formula::Not(viewed_operand(alloc, scope, f.get())?)),
        Formula::And(f, g) => {
            let f = viewed_operand(alloc, scope, f.get())?;
            let (f, g) = beside(f, viewed_operand(alloc, scope, g.get()))?;
            Ok(Formula::And(f, g))
        }
        Formula::Or(f, g) => {
            let f = viewed_operand(alloc, scope, f.get())?;
            let (f, g) = beside(f, viewed_operand(alloc, scope, g.get()))?;
            Ok(Formula::Or(f, g))
        }
        Formula::Implies(f, g) => {
            let f = viewed_operand(alloc, scope, f.get())?;
            let (f, g) = beside(f, viewed_operand(alloc, scope, g.get()))?;
            Ok(Formula::Implies(f, g))
        }
    }
}

/// An operand of an assertion.
#[cycle(viewed)]
fn viewed_operand(
    alloc: Global,
    scope: Scope,
    f: &Formula<RawAtom>,
) -> Result<Boxed<Formula<ViewAtom>>, OutlineFault>
    requires { (scope.domain ≤ largest_domain_2) × (scope.threads ≤ most_threads) }
    ensures { Makes (λ g. with_atoms raw_of (plain g)) (plain f.now) (in_formula (atom_fault scope.domain scope.threads) (plain f.now)) result }
{
    Ok(Boxed::new(alloc, viewed(alloc, scope, f)?)?)
}

/// The assertions of a thread's points.
fn viewed_thread(
    alloc: Global,
    scope: Scope,
    notes: &[Formula<RawAtom>],
) -> Result<Vec<Formula<ViewAtom>>, OutlineFault>
    requires { (scope.domain ≤ largest_domain_2) × (scope.threads ≤ most_threads) }
    ensures { Makes (λ fs. map (with_atoms raw_of) (map plain fs.items)) (map plain notes.now) (first_in (in_formula (atom_fault scope.domain scope.threads)) (map plain notes.now)) result }
{
    let mut viewed_notes = Vec::new(alloc);
    for note in notes {
        viewed_notes.push(viewed(alloc, scope, note)?)?;
    }
    Ok(viewed_notes)
}

/// The assertions of each thread.
pub fn viewed_threads(
    alloc: Global,
    scope: Scope,
    notes: &[Vec<Formula<RawAtom>>],
) -> Result<Vec<Vec<Formula<ViewAtom>>>, OutlineFault>
    requires { (scope.domain ≤ largest_domain_2) × (scope.threads ≤ most_threads) }
    ensures { Makes (λ ts. map (map (with_atoms raw_of)) (map (λ t. map plain t.items) ts.items)) (map (λ t. map plain t.items) notes.now) (first_in (first_in (in_formula (atom_fault scope.domain scope.threads))) (map (λ t. map plain t.items) notes.now)) result }
{
    let mut threads = Vec::new(alloc);
    for thread in notes {
        threads.push(viewed_thread(alloc, scope, thread)?)?;
    }
    Ok(threads)
}

/// Checks the values of a crash formula.
pub fn check_crash(scope: Scope, f: &Formula<CrashAtom>) -> Result<(), OutlineFault>
    requires { scope.domain ≤ largest_domain_2 }
    ensures { Checks (in_formula (crash_atom_fault scope.domain) (plain f.now)) result }
{
    match f {
        Formula::True | Formula::False => Ok(()),
        Formula::Atom(CrashAtom::Scalar { k: v, .. } | CrashAtom::Location { v, .. }) => {
            scope.value(*v)?;
            Ok(())
        }
        Formula::Not(f) => check_crash(scope, f.get()),
        Formula::And(f, g) | Formula::Or(f, g) | Formula::Implies(f, g) => {
            check_crash(scope, f.get())?;
            check_crash(scope, g.get())
        }
    }
}
