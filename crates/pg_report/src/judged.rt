//! The text of a judgement.

ghost use Rattle.std.specs.Prelude.{◌≡◌, ◌+◌, ◌*◌, ◌++◌, ◌<◌, ◌≤◌, IfOk, OnOk, length, codes, decimal};
ghost use Rattle.std.specs.List.{flat_map};
ghost use Rattle.pg_assertion.specs.Atom.{NamesDeclared};
ghost use Rattle.pg_assertion.specs.Layout.{values};
ghost use Rattle.pg_assertion.specs.StepAtom.{IsStepAtom, step_atoms};
ghost use Rattle.pg_layers.specs.Clauses.{layout_of, obligation};
ghost use Rattle.pg_judge.specs.Outcome.{outcome_of};
ghost use Rattle.pg_report.specs.Judged as spec;
ghost use Rattle.pg_report.specs.Obligations.{heading};
ghost use Rattle.pg_report.specs.Reported.{ReportsLines};

use crate::fault::ReportFault;
use crate::lines::put_lines;
use crate::obligations::append_heading;
use crate::words::{append_counted, append_line, append_view_atom};
use pg_assertion::{Layout, Side, StepAtom, ViewAtom};
use pg_io::Sink;
use pg_judge::Judgement;
use pg_obligations::{Obligation, Obligations};
use pg_outline::Outline;
use pg_program::Names;
use std::alloc::{AllocError, Global};

/// Puts the text of a judgement, each line as one piece: `accepted` with the number of obligations; or `rejected` or `spent` with the
/// number and the kind of the obligation at which it ends, and where it is rejected a line for each atom that is true in the model.
pub fn report_judgement<K: Sink>(
    alloc: Global,
    o: &Outline,
    judgement: &Judgement,
    out: &mut K,
) -> Result<(), ReportFault>
    requires { spec.IsToldOf o.now (outcome_of judgement.now) }
    ensures lines { ReportsLines (spec.judgement_text o.now (outcome_of judgement.now)) result (K.written out.old) (K.written out.new) (K.faults out.old) (K.faults out.new) }
    ensures faults { K.faults out.old ≤ K.faults out.new }
{
    let text = judgement_text(alloc, o, judgement)?;
    put_lines(&text, out)
}

/// The text of a judgement.
fn judgement_text(alloc: Global, o: &Outline, judgement: &Judgement) -> Result<Vec<u8>, AllocError>
    requires { spec.IsToldOf o.now (outcome_of judgement.now) }
    ensures { IfOk result (λ text. text.items ≡ spec.judgement_text o.now (outcome_of judgement.now)) }
{
    let mut text = Vec::new(alloc);
    append_judgement(o, judgement, &mut text)?;
    Ok(text)
}

/// Appends the text of a judgement.
pub fn append_judgement(
    o: &Outline,
    judgement: &Judgement,
    text: &mut Vec<u8>,
) -> Result<(), AllocError>
    requires { spec.IsToldOf o.now (outcome_of judgement.now) }
    ensures { OnOk result (text.new.items ≡ text.old.items ++ spec.judgement_text o.now (outcome_of judgement.now)) }
{
    match judgement {
        Judgement::Accepted { count, .. } => append_line(b"accepted ", *count, text),
        Judgement::Rejected { i, truths } => append_rejected(o, *i, truths, text),
        Judgement::Spent { i } => append_named(b"spent ", o, *i, text),
    }
}

fn append_rejected(
    o: &Outline,
    i: u32,
    truths: &[bool],
    text: &mut Vec<u8>,
) -> Result<(), AllocError>
    requires number { spec.IsNumbered o.now i }
    requires truths { step_atoms (layout_of o.now) + 1 ≤ length truths.now }
    ensures { OnOk result (text.new.items ≡ text.old.items ++ (codes "rejected " ++ (heading i (obligation o.now i) ++ spec.true_lines o.now truths.now))) }
{
    append_named(b"rejected ", o, i, text)?;
    append_true(o, truths, text)
}

/// Appends a word, and the number and the kind of an obligation.
fn append_named(word: &[u8], o: &Outline, i: u32, text: &mut Vec<u8>) -> Result<(), AllocError>
    requires { spec.IsNumbered o.now i }
    ensures { OnOk result (text.new.items ≡ text.old.items ++ (word.now ++ heading i (obligation o.now i))) }
{
    text.extend_from_slice(word)?;
    append_heading(i, obligation_of(o, i), text)
}

/// The obligation with a number.
fn obligation_of(o: &Outline, i: u32) -> Obligation
    requires { spec.IsNumbered o.now i }
    ensures { result ≡ obligation o.now i }
{
    Obligations::of(o).shape(i)
}

/// Appends a line for each atom of a step that is true.
fn append_true(o: &Outline, truths: &[bool], text: &mut Vec<u8>) -> Result<(), AllocError>
    requires { step_atoms (layout_of o.now) + 1 ≤ length truths.now }
    ensures { OnOk result (text.new.items ≡ text.old.items ++ spec.true_lines o.now truths.now) }
{
    append_side(o, truths, Side::Before, text)?;
    append_side(o, truths, Side::After, text)?;
    append_own(o, truths, text)
}

/// Appends the lines of what the step does.
fn append_own(o: &Outline, truths: &[bool], text: &mut Vec<u8>) -> Result<(), AllocError>
    requires { step_atoms (layout_of o.now) + 1 ≤ length truths.now }
    ensures { OnOk result (text.new.items ≡ text.old.items ++ spec.step_lines o.now truths.now) }
{
    append_stored(o, truths, text)?;
    append_expected(o, truths, text)?;
    append_cases(o, truths, text)
}

fn append_cases(o: &Outline, truths: &[bool], text: &mut Vec<u8>) -> Result<(), AllocError>
    requires { step_atoms (layout_of o.now) + 1 ≤ length truths.now }
    ensures { OnOk result (text.new.items ≡ text.old.items ++ spec.case_lines o.now truths.now) }
{
    append_if_true(o, truths, StepAtom::Success, text)?;
    append_if_true(o, truths, StepAtom::Taken, text)
}

fn append_side(
    o: &Outline,
    truths: &[bool],
    side: Side,
    text: &mut Vec<u8>,
) -> Result<(), AllocError>
    requires { step_atoms (layout_of o.now) + 1 ≤ length truths.now }
    ensures { OnOk result (text.new.items ≡ text.old.items ++ spec.side_lines o.now truths.now side) }
{
    let layout = layout_of(o);
    'atoms: for n in 0..layout.atoms() {
        let atom = layout.atom(n + 1);
        append_if_true(o, truths, StepAtom::On { atom, side }, text)?;
    }
    Ok(())
}

fn append_stored(o: &Outline, truths: &[bool], text: &mut Vec<u8>) -> Result<(), AllocError>
    requires { step_atoms (layout_of o.now) + 1 ≤ length truths.now }
    ensures { OnOk result (text.new.items ≡ text.old.items ++ flat_map (λ v. spec.true_line o.now truths.now (StepAtom.Value v)) (values (layout_of o.now))) }
{
    'values: for v in 0..layout_of(o).domain() as u8 {
        append_if_true(o, truths, StepAtom::Value { v }, text)?;
    }
    Ok(())
}

fn append_expected(o: &Outline, truths: &[bool], text: &mut Vec<u8>) -> Result<(), AllocError>
    requires { step_atoms (layout_of o.now) + 1 ≤ length truths.now }
    ensures { OnOk result (text.new.items ≡ text.old.items ++ flat_map (λ v. spec.true_line o.now truths.now (StepAtom.Expected v)) (values (layout_of o.now))) }
{
    'values: for v in 0..layout_of(o).domain() as u8 {
        append_if_true(o, truths, StepAtom::Expected { v }, text)?;
    }
    Ok(())
}

/// Appends the line of an atom, if it is true.
fn append_if_true(
    o: &Outline,
    truths: &[bool],
    atom: StepAtom,
    text: &mut Vec<u8>,
) -> Result<(), AllocError>
    requires atom { IsStepAtom (layout_of o.now) atom }
    requires truths { step_atoms (layout_of o.now) + 1 ≤ length truths.now }
    ensures { OnOk result (text.new.items ≡ text.old.items ++ spec.true_line o.now truths.now atom) }
{
    let n = layout_of(o).step_number(&atom);
    if truths[n as usize] {
        return append_step_atom(o.program().names(), atom, text);
    }
    Ok(())
}

fn layout_of(o: &Outline) -> Layout
    ensures { result ≡ layout_of o.now }
{
    Layout::of(o.program().names(), o.program().threads())
}

/// Appends the line of an atom of a step.
fn append_step_atom(names: &Names, atom: StepAtom, text: &mut Vec<u8>) -> Result<(), AllocError>
    requires { spec.IsSpelled names.now atom }
    ensures { OnOk result (text.new.items ≡ text.old.items ++ spec.step_atom_line names.now atom) }
{
    match atom {
        StepAtom::On { atom, side } => append_atom(names, atom, side, text),
        StepAtom::Value { v } => append_value(b"step K(", v, text),
        StepAtom::Expected { v } => append_value(b"step E(", v, text),
        StepAtom::Success => text.extend_from_slice(b"step S\n"),
        StepAtom::Taken => text.extend_from_slice(b"step T\n"),
    }
}

fn append_atom(
    names: &Names,
    atom: ViewAtom,
    side: Side,
    text: &mut Vec<u8>,
) -> Result<(), AllocError>
    requires { NamesDeclared names.now atom }
    ensures { OnOk result (text.new.items ≡ text.old.items ++ spec.step_atom_line names.now (StepAtom.On atom side)) }
{
    text.extend_from_slice(side_word(side))?;
    append_view_atom(atom, names, text)?;
    text.extend_from_slice(b"\n")
}

fn side_word(side: Side) -> &'static [u8]
    ensures { result.now ≡ spec.side_word side }
{
    match side {
        Side::Before => b"before ",
        Side::After => b"after ",
    }
}

fn append_value(word: &[u8], v: u8, text: &mut Vec<u8>) -> Result<(), AllocError>
    ensures { OnOk result (text.new.items ≡ text.old.items ++ (word.now ++ (decimal v ++ codes ")\n"))) }
{
    append_counted(word, u32::from(v), text)?;
    text.extend_from_slice(b")\n")
}
