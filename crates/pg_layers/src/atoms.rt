//! How many atoms an obligation has.

ghost use Rattle.std.specs.Prelude.{◌≡◌, ◌*◌, ◌<◌, ◌≤◌, ◌^◌};
ghost use Rattle.pg_assertion.specs.Formula.{plain, nodes};
ghost use Rattle.pg_assertion.specs.Limits.{most_expansion_nodes};
ghost use Rattle.pg_obligations.specs.Follow.{crash_of};
ghost use Rattle.pg_layers.specs.Clauses.{layout_of, obligation_atoms};
ghost use Rattle.pg_layers.specs.Members.{IsObligationOf};
ghost use Rattle.pg_layers.specs.Needs.{IsMostAtoms};
ghost use Rattle.pg_layers.specs.Top.{taken, new_in};

use crate::obligation::{layout_of, note, pre};
use pg_assertion::{Formula, Layout, ViewAtom};
use pg_obligations::{Obligation, Obligations};
use pg_outline::Outline;

/// How many new atoms a formula takes: one for each node but atoms and negations.
pub fn taken(f: &Formula<ViewAtom>) -> u32
    requires { nodes (plain f.now) < 2 ^ 32 }
    ensures count { result ≡ taken (plain f.now) }
    ensures few { result ≤ nodes (plain f.now) }
{
    match f {
        Formula::True | Formula::False => 1,
        Formula::Atom(_) => 0,
        Formula::Not(f) => taken(f.get()),
        Formula::And(f, g) | Formula::Or(f, g) | Formula::Implies(f, g) => {
            1 + (taken(f.get()) + taken(g.get()))
        }
    }
}

/// How many atoms an obligation has: those of a step, and the new ones that its formulas take. `crash` is how many the expansion of
/// the crash formula takes.
pub fn atoms_of(o: &Outline, layout: &Layout, crash: u32, ob: Obligation) -> u32
    requires layout { layout.now ≡ layout_of o.now }
    requires crash { crash ≡ taken (crash_of o.now) }
    requires small { crash ≤ most_expansion_nodes }
    requires ob { IsObligationOf o.now.program ob }
    ensures atoms { result ≡ obligation_atoms o.now ob }
    ensures few { result < 2 ^ 31 }
{
    layout.step_atoms() + new_atoms(o, crash, ob)
}

/// How many new atoms the formulas of an obligation take.
fn new_atoms(o: &Outline, crash: u32, ob: Obligation) -> u32
    requires crash { crash ≡ taken (crash_of o.now) }
    requires small { crash ≤ most_expansion_nodes }
    requires ob { IsObligationOf o.now.program ob }
    ensures count { result ≡ new_in o.now ob }
    ensures few { result ≤ 4 * most_expansion_nodes }
{
    match ob {
        Obligation::Fresh => taken(pre(o)),
        Obligation::Entry(t) => taken(pre(o)) + taken(note(o, t, 1)),
        Obligation::EntryCrash => taken(pre(o)) + crash,
        Obligation::Local(step) => {
            taken(note(o, step.thread, step.point))
                + crash
                + taken(note(o, step.thread, step.target))
        }
        Obligation::Crash(step) => taken(note(o, step.thread, step.point)) + crash + crash,
        Obligation::Interfere(step, at) => {
            let stable = taken(note(o, at.thread, at.point));
            taken(note(o, step.thread, step.point)) + stable + crash + stable
        }
    }
}

/// The most atoms of an obligation of an outline.
pub fn most_atoms(o: &Outline, crash: u32) -> u32
    requires crash { crash ≡ taken (crash_of o.now) }
    requires small { crash ≤ most_expansion_nodes }
    ensures { IsMostAtoms o.now result }
{
    let layout = layout_of(o);
    let obligations = Obligations::of(o);
    let mut most = 0;
    for i in 0..obligations.count() {
        let atoms = atoms_of(o, &layout, crash, obligations.shape(i + 1));
        if atoms > most {
            most = atoms;
        }
    }
    most
}
