//! The truth of formulas in a state, and of crash formulas in a memory that a crash leaves.

ghost use Rattle.std.specs.Prelude.{◌≡◌, ℕ, length};
ghost use Rattle.pg_assertion.specs.Formula.{plain, AllAtoms};
ghost use Rattle.pg_machine.specs.State.{IsWellFormed};
ghost use Rattle.pg_views.specs.Formula.{holds, holds_crash, crash_atom_holds, SpeaksOf, IsCrashAtom};

use crate::atom::holds_atom;
use crate::crashes::Nvm;
use pg_assertion::{CrashAtom, Formula, ViewAtom};
use pg_machine::State;
use pg_program::Program;

/// Whether a formula holds in a state. It takes no memory, and no more time than is linear in the nodes of the formula, the
/// messages and the threads, multiplied.
pub fn holds(s: &State, p: &Program, f: &Formula<ViewAtom>) -> bool
    requires formed { IsWellFormed p.now s.now.state }
    requires atoms { SpeaksOf p.now (plain f.now) }
    ensures { result ≡ holds s.now.state (plain f.now) }
{
    match f {
        Formula::True => true,
        Formula::False => false,
        Formula::Atom(a) => holds_atom(s, p, a),
        Formula::Not(f) => !holds(s, p, f.get()),
        Formula::And(f, g) => holds(s, p, f.get()) && holds(s, p, g.get()),
        Formula::Or(f, g) => holds(s, p, f.get()) || holds(s, p, g.get()),
        Formula::Implies(f, g) => !holds(s, p, f.get()) || holds(s, p, g.get()),
    }
}

/// Whether a crash formula holds of a memory that a crash left, with the values of the scalars at the crash.
pub fn holds_crash(n: &Nvm, scalars: &[u8], f: &Formula<CrashAtom>) -> bool
    requires { AllAtoms (IsCrashAtom (length n.now) (length scalars.now)) (plain f.now) }
    ensures { result ≡ holds_crash n.now scalars.now (plain f.now) }
{
    match f {
        Formula::True => true,
        Formula::False => false,
        Formula::Atom(a) => holds_crash_atom(n, scalars, a),
        Formula::Not(f) => !holds_crash(n, scalars, f.get()),
        Formula::And(f, g) => {
            holds_crash(n, scalars, f.get()) && holds_crash(n, scalars, g.get())
        }
        Formula::Or(f, g) => {
            holds_crash(n, scalars, f.get()) || holds_crash(n, scalars, g.get())
        }
        Formula::Implies(f, g) => {
            !holds_crash(n, scalars, f.get()) || holds_crash(n, scalars, g.get())
        }
    }
}

/// The same for an atom.
fn holds_crash_atom(n: &Nvm, scalars: &[u8], a: &CrashAtom) -> bool
    requires { IsCrashAtom (length n.now) (length scalars.now) a.now }
    ensures { result ≡ crash_atom_holds n.now scalars.now a.now }
{
    match a {
        CrashAtom::Scalar { r, k } => u32::from(scalars[usize::from(*r)]) == *k,
        CrashAtom::Location { x, v } => u32::from(n.value(*x)) == *v,
    }
}
