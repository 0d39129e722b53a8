//! Outlines that were built.

ghost use Rattle.std.specs.Prelude.{◌≡◌, ◌-◌, ◌≤◌, All, [], length, map, slice_index_or};
ghost use Rattle.pg_assertion.specs.Formula.{plain, AllAtoms};
ghost use Rattle.pg_assertion.specs.Expansion.{expansion, IsAtomOf};
ghost use Rattle.pg_program.specs.Limits.{IsDomainSize};
ghost use Rattle.pg_program.specs.Program.{points, IsProgram};
ghost use Rattle.pg_assertion.specs.Atom.{CrashDeclared};
ghost use Rattle.pg_outline.specs.Outline.{Draft, IsSmall};
ghost use Rattle.pg_outline.specs.Parts.{AreParts};
ghost use Rattle.pg_outline.specs.Speaks.{IsOver, IsCrashOver};
ghost use Rattle.pg_outline.specs.Fault.{first_of, locations_fault, size_fault};
ghost use Rattle.pg_outline.specs.Made.{Makes};

use crate::fault::OutlineFault;
use crate::view::{Scope, check_crash, viewed, viewed_threads};
use pg_assertion::{CrashAtom, ExpandFault, Formula, RawAtom, ViewAtom, expand, named_count};
use pg_program::{Names, PointId, Program};
use std::alloc::Global;
use std::marker::Model;

/// The most locations that a crash formula may name.
pub const MAX_CRASH_LOCATIONS: usize = 3;

/// A well-formed outline.
#[derive(Drop)]
pub struct Outline {
    program: Program,
    pre: Formula<ViewAtom>,
    crash: Formula<CrashAtom>,
    expanded: Formula<ViewAtom>,
    notes: Vec<Vec<Formula<ViewAtom>>>,
}

impl Model for Outline {
    ghost use Rattle.std.specs.Prelude.{map, ◌≡◌};
    ghost use Rattle.std.specs.Coded.{codes};
    ghost use Rattle.pg_program.specs.contracts.syntax.Stmt as stmt;
    ghost use Rattle.pg_assertion.specs.Formula.{plain};
    ghost use Rattle.pg_assertion.specs.Expansion.{expansion};
    ghost use Rattle.pg_outline.specs.Codes.{view_code, crash_code};
    ghost use Rattle.pg_outline.specs.Outline.{OutlineTable};
    ghost use Rattle.pg_outline.specs.Made.{IsOutline};

    ghost Value = { OutlineTable };

    ghost coded = { Prim.hlevel (codes, stmt.the_row.coded, view_code, crash_code) };

    ghost view = { λ o. record { program = o.program; pre = plain o.pre; crash = plain o.crash; notes = map (λ t. map plain t.items) o.notes.items } };

    ghost invariant = { λ o. IsOutline (record { program = o.program; pre = plain o.pre; crash = plain o.crash; notes = map (λ t. map plain t.items) o.notes.items }) × (plain o.expanded ≡ expansion o.program.names (plain o.crash)) };
}

impl Outline {
    ghost use Rattle.pg_outline.specs.Outline.{OutlineTable, IsDraft, draft_of, note_at};
    ghost use Rattle.pg_outline.specs.Fault.{first_fault};
    ghost use Rattle.pg_outline.specs.Made.{IsOutline};

    /// The outline of a program and its formulas, with an assertion for each point of each thread, in the order of the text; or
    /// the first fault of the formulas.
    pub fn build(
        alloc: Global,
        program: Program,
        pre: Formula<RawAtom>,
        crash: Formula<CrashAtom>,
        notes: Vec<Vec<Formula<RawAtom>>>,
    ) -> Result<Outline, OutlineFault>
        requires { IsDraft (record { program = program; pre = plain pre; crash = plain crash; notes = map (λ t. map plain t.items) notes.items }) }
        ensures { let draft : Draft = record { program = program; pre = plain pre; crash = plain crash; notes = map (λ t. map plain t.items) notes.items } in
            Makes draft_of draft (first_fault draft) result }
    {
        let parts = parts_of(alloc, &program, pre, &crash, notes)?;
        Ok(Outline {
            program,
            pre: parts.pre,
            crash,
            expanded: parts.expanded,
            notes: parts.notes,
        })
    }

    /// The program.
    pub fn program(&self) -> &Program
        ensures program { result.now ≡ self.now.program }
        ensures made { IsOutline self.now }
    {
        &self.program
    }

    /// The precondition.
    pub fn pre(&self) -> &Formula<ViewAtom>
        ensures formula { plain result.now ≡ self.now.pre }
        ensures speaks { IsOver self.now.program (plain result.now) }
    {
        &self.pre
    }

    /// The crash formula.
    pub fn crash(&self) -> &Formula<CrashAtom>
        ensures formula { plain result.now ≡ self.now.crash }
        ensures speaks { IsCrashOver self.now.program (plain result.now) }
    {
        &self.crash
    }

    /// The expansion of the crash formula.
    pub fn crash_expanded(&self) -> &Formula<ViewAtom>
        ensures formula { plain result.now ≡ expansion self.now.program.names self.now.crash }
        ensures speaks { IsOver self.now.program (plain result.now) }
    {
        &self.expanded
    }

    /// The assertion at a point.
    pub fn note(&self, at: PointId) -> &Formula<ViewAtom>
        requires thread { (1 ≤ at.thread) × (at.thread ≤ length self.now.program.threads) }
        requires point { (1 ≤ at.point) × (at.point ≤ points self.now.program at.thread) }
        ensures formula { plain result.now ≡ note_at self.now at.thread at.point }
        ensures speaks { IsOver self.now.program (plain result.now) }
    {
        &self.thread_notes(at.thread)[usize::from(at.point) - 1]
    }

    /// The assertions of a thread's points, in their order.
    pub fn thread_notes(&self, thread: u8) -> &[Formula<ViewAtom>]
        requires { (1 ≤ thread) × (thread ≤ length self.now.program.threads) }
        ensures notes { map plain result.now ≡ slice_index_or self.now.notes (thread - 1) [] }
        ensures one_a_point { length result.now ≡ points self.now.program thread }
        ensures speaks { All (IsOver self.now.program) (map plain result.now) }
    {
        self.notes[usize::from(thread) - 1].as_slice()
    }
}

/// What is made of the formulas of an outline.
#[derive(Drop)]
struct Parts {
    pre: Formula<ViewAtom>,
    expanded: Formula<ViewAtom>,
    notes: Vec<Vec<Formula<ViewAtom>>>,
}

/// The parts of an outline, or the first fault of its formulas. Those of the text are let go.
fn parts_of(
    alloc: Global,
    program: &Program,
    pre: Formula<RawAtom>,
    crash: &Formula<CrashAtom>,
    notes: Vec<Vec<Formula<RawAtom>>>,
) -> Result<Parts, OutlineFault>
    requires { IsSmall (CrashDeclared program.now.names) (plain crash.now) }
    ensures { let draft : Draft = record { program = program.now; pre = plain pre; crash = plain crash.now; notes = map (λ t. map plain t.items) notes.items } in
        AreParts draft result }
{
    viewed_parts(alloc, program, &pre, crash, &notes)
}

/// The same of formulas that are lent.
fn viewed_parts(
    alloc: Global,
    program: &Program,
    pre: &Formula<RawAtom>,
    crash: &Formula<CrashAtom>,
    notes: &[Vec<Formula<RawAtom>>],
) -> Result<Parts, OutlineFault>
    requires { IsSmall (CrashDeclared program.now.names) (plain crash.now) }
    ensures { let draft : Draft = record { program = program.now; pre = plain pre.now; crash = plain crash.now; notes = map (λ t. map plain t.items) notes.now } in
        AreParts draft result }
{
    let scope = Scope::of(program);
    let pre = viewed(alloc, scope, pre)?;
    check_crash(scope, crash)?;
    let notes = viewed_threads(alloc, scope, notes)?;
    let expanded = expanded(alloc, crash, program.names())?;
    Ok(Parts {
        pre,
        expanded,
        notes,
    })
}

/// The expansion of a crash formula whose values are in the domain.
fn expanded(
    alloc: Global,
    crash: &Formula<CrashAtom>,
    names: &Names,
) -> Result<Formula<ViewAtom>, OutlineFault>
    requires domain { IsDomainSize names.now.domain }
    requires crash { IsSmall (IsAtomOf names.now) (plain crash.now) }
    ensures { Makes plain (expansion names.now (plain crash.now)) (first_of (locations_fault names.now (plain crash.now)) (size_fault names.now (plain crash.now))) result }
{
    let locations = named_count(crash, names.locations());
    if locations > MAX_CRASH_LOCATIONS {
        return Err(OutlineFault::CrashLocations(locations as u32));
    }
    match expand(alloc, crash, names) {
        Ok(f) => Ok(f),
        Err(ExpandFault::TooLarge(n)) => Err(OutlineFault::CrashNodes(n)),
        Err(ExpandFault::NoMemory) => Err(OutlineFault::NoMemory),
    }
}
