//! What the tests of axioms and rules are over: programs with as many clauses as they have, their layouts and their first steps.

ghost use Rattle.std.specs.Prelude.{◌≡◌, length, IfOk};
ghost use Rattle.pg_assertion.specs.Layout.{sizes};
ghost use Rattle.pg_tables.specs.Steps.{IsStepOf};

use pg_assertion::Layout;
use pg_cases::Parts;
use pg_program::{NameKind, PointId, Program, Step};
use std::test::Fail;

pub const X: (&str, NameKind) = ("x", NameKind::Location { init: 0 });

pub const Y: (&str, NameKind) = ("y", NameKind::Location { init: 0 });

/// A location on the line of the one before it.
pub const BESIDE: (&str, NameKind) = ("y", NameKind::LocationWith { init: 0 });

pub const R: (&str, NameKind) = ("r", NameKind::Register { owner: 1 });

pub const G: (&str, NameKind) = ("g", NameKind::Auxiliary);

/// As many scalars as there may be, four of them registers, and eight locations.
pub const MANY: [(&str, NameKind); 24] = [
    R,
    ("s", NameKind::Register { owner: 1 }),
    ("t", NameKind::Register { owner: 1 }),
    ("u", NameKind::Register { owner: 1 }),
    G,
    ("h", NameKind::Auxiliary),
    ("i", NameKind::Auxiliary),
    ("j", NameKind::Auxiliary),
    ("k", NameKind::Auxiliary),
    ("l", NameKind::Auxiliary),
    ("m", NameKind::Auxiliary),
    ("n", NameKind::Auxiliary),
    ("o", NameKind::Auxiliary),
    ("p", NameKind::Auxiliary),
    ("q", NameKind::Auxiliary),
    ("v", NameKind::Auxiliary),
    X,
    Y,
    ("a", NameKind::Location { init: 0 }),
    ("b", NameKind::Location { init: 0 }),
    ("c", NameKind::Location { init: 0 }),
    ("d", NameKind::Location { init: 0 }),
    ("e", NameKind::Location { init: 0 }),
    ("f", NameKind::Location { init: 0 }),
];

/// A program, and how many clauses and literals the axioms of a side have in it, or the rules of its first step.
pub struct Case {
    pub of: Parts<'static>,
    pub clauses: u32,
    pub literals: u32,
}

/// The layout of a program.
pub fn layout_of(p: &Program) -> Result<Layout, Fail>
    ensures { IfOk result (λ l. l ≡ sizes p.now.names (length p.now.threads)) }
{
    let (values, threads) = (p.names().domain(), p.threads());
    if values < 2 || values > 6 || threads < 1 {
        return Err(Fail::new("a program has another size"));
    }
    Ok(Layout::of(p.names(), threads))
}

/// The first step from the first point of a program.
pub fn first_step(p: &Program) -> Result<Step, Fail>
    ensures { IfOk result (λ s. IsStepOf p.now s) }
{
    if p.threads() < 1 {
        return Err(Fail::new("a program has no thread"));
    }
    let at = PointId {
        thread: 1,
        point: 1,
    };
    match p.steps(at) {
        [step, ..] => Ok(*step),
        [] => Err(Fail::new("a thread has no statement")),
    }
}
