//! The text of the obligations of an outline.

ghost use Rattle.std.specs.Prelude.{◌≡◌, ◌++◌, ◌≤◌, IfOk, OnOk, codes, decimal};
ghost use Rattle.std.specs.List.{flat_map};
ghost use Rattle.pg_assertion.specs.Formula.{plain};
ghost use Rattle.pg_outline.specs.Outline.{note_at};
ghost use Rattle.pg_outline.specs.Speaks.{IsOver};
ghost use Rattle.pg_report.specs.Obligations as spec;
ghost use Rattle.pg_report.specs.Placed.{IsPlaced, IsPoint, IsStepOf};
ghost use Rattle.pg_report.specs.Reported.{ReportsLines};

use crate::fault::ReportFault;
use crate::fresh::append_fresh;
use crate::lines::put_lines;
use crate::words::{append_counted, append_number};
use pg_assertion::{Formula, ViewAtom};
use pg_assertion_text::{print_crash, print_formula};
use pg_io::Sink;
use pg_obligations::{Obligation, Obligations};
use pg_outline::Outline;
use pg_program::{Branch, PointId, Step};
use std::alloc::{AllocError, Global};

/// Puts the text of an outline's obligations, each line as one piece. At most one obligation's text is held at a time. Memory may
/// run out after some of the lines.
pub fn report_obligations<K: Sink>(
    alloc: Global,
    o: &Outline,
    out: &mut K,
) -> Result<(), ReportFault>
    ensures lines { ReportsLines (spec.obligations_text o.now) result (K.written out.old) (K.written out.new) (K.faults out.old) (K.faults out.new) }
    ensures faults { K.faults out.old ≤ K.faults out.new }
{
    let obligations = Obligations::of(o);
    'obligations: for n in 0..obligations.count() {
        report_obligation(alloc, o, n + 1, obligations.shape(n + 1), out)?;
    }
    Ok(())
}

/// Puts the lines of obligation `i`.
fn report_obligation<K: Sink>(
    alloc: Global,
    o: &Outline,
    i: u32,
    obligation: Obligation,
    out: &mut K,
) -> Result<(), ReportFault>
    requires { IsPlaced o.now.program obligation }
    ensures lines { ReportsLines (spec.obligation_text o.now i obligation) result (K.written out.old) (K.written out.new) (K.faults out.old) (K.faults out.new) }
    ensures faults { K.faults out.old ≤ K.faults out.new }
{
    let text = obligation_text(alloc, o, i, obligation)?;
    put_lines(&text, out)
}

/// The lines of obligation `i`.
fn obligation_text(
    alloc: Global,
    o: &Outline,
    i: u32,
    obligation: Obligation,
) -> Result<Vec<u8>, AllocError>
    requires { IsPlaced o.now.program obligation }
    ensures { IfOk result (λ text. text.items ≡ spec.obligation_text o.now i obligation) }
{
    let mut text = Vec::new(alloc);
    append_obligation(o, i, obligation, &mut text)?;
    Ok(text)
}

/// Appends the lines of obligation `i`.
fn append_obligation(
    o: &Outline,
    i: u32,
    obligation: Obligation,
    text: &mut Vec<u8>,
) -> Result<(), AllocError>
    requires { IsPlaced o.now.program obligation }
    ensures { OnOk result (text.new.items ≡ text.old.items ++ spec.obligation_text o.now i obligation) }
{
    append_heading(i, obligation, text)?;
    append_givens(o, obligation, text)?;
    append_goal(o, obligation, text)
}

/// Appends the line with the number and the kind.
pub fn append_heading(i: u32, obligation: Obligation, text: &mut Vec<u8>) -> Result<(), AllocError>
    ensures { OnOk result (text.new.items ≡ text.old.items ++ spec.heading i obligation) }
{
    append_number(i, text)?;
    text.extend_from_slice(b" ")?;
    append_kind(obligation, text)?;
    text.extend_from_slice(b"\n")
}

/// Appends the kind of an obligation.
fn append_kind(obligation: Obligation, text: &mut Vec<u8>) -> Result<(), AllocError>
    ensures { OnOk result (text.new.items ≡ text.old.items ++ spec.obligation_kind obligation) }
{
    match obligation {
        Obligation::Fresh => text.extend_from_slice(b"fresh"),
        Obligation::Entry(t) => append_counted(b"entry ", u32::from(t), text),
        Obligation::EntryCrash => text.extend_from_slice(b"entry crash"),
        Obligation::Local(step) => append_step(b"local ", step, text),
        Obligation::Crash(step) => append_step(b"crash ", step, text),
        Obligation::Interfere(step, at) => append_interference(step, at, text),
    }
}

/// Appends the kind of the interference of a step with the assertion at a point.
fn append_interference(step: Step, at: PointId, text: &mut Vec<u8>) -> Result<(), AllocError>
    ensures { OnOk result (text.new.items ≡ text.old.items ++ spec.obligation_kind (Obligation.Interfere step at)) }
{
    append_step(b"interfere ", step, text)?;
    text.extend_from_slice(b" on ")?;
    append_point(at.thread, at.point, text)
}

/// Appends a word and the name of a step.
fn append_step(word: &[u8], step: Step, text: &mut Vec<u8>) -> Result<(), AllocError>
    ensures { OnOk result (text.new.items ≡ text.old.items ++ (word.now ++ spec.step_text step)) }
{
    text.extend_from_slice(word)?;
    append_point(step.thread, step.point, text)?;
    text.extend_from_slice(branch_letter(step.branch))
}

/// The letter of a branch, if it has one.
fn branch_letter(branch: Branch) -> &'static [u8]
    ensures { result.now ≡ spec.branch_text branch }
{
    match branch {
        Branch::Plain => b"",
        Branch::Yes => b"t",
        Branch::No => b"f",
    }
}

/// Appends a point by the numbers of its thread and its own.
pub fn append_point(thread: u8, point: u8, text: &mut Vec<u8>) -> Result<(), AllocError>
    ensures { OnOk result (text.new.items ≡ text.old.items ++ spec.point_text thread point) }
{
    append_number(u32::from(thread), text)?;
    text.extend_from_slice(b".")?;
    append_number(u32::from(point), text)
}

/// Appends a line for each given.
fn append_givens(o: &Outline, obligation: Obligation, text: &mut Vec<u8>) -> Result<(), AllocError>
    requires { IsPlaced o.now.program obligation }
    ensures { OnOk result (text.new.items ≡ text.old.items ++ flat_map (spec.given_line o.now.program.names) (spec.givens o.now obligation)) }
{
    match obligation {
        Obligation::Fresh => append_fresh(o, text),
        Obligation::Entry(_) => append_assertion(b"given ", o, o.pre(), text),
        Obligation::EntryCrash => append_assertion(b"given ", o, o.pre(), text),
        Obligation::Local(step) => append_before(o, step, text),
        Obligation::Crash(step) => append_before(o, step, text),
        Obligation::Interfere(step, at) => {
            append_note(b"given ", o, step.thread, step.point, text)?;
            append_note(b"given ", o, at.thread, at.point, text)?;
            append_crash(b"given ", o, text)
        }
    }
}

/// Appends what is given before a step alone.
fn append_before(o: &Outline, step: Step, text: &mut Vec<u8>) -> Result<(), AllocError>
    requires { IsStepOf o.now.program step }
    ensures { OnOk result (text.new.items ≡ text.old.items ++ flat_map (spec.given_line o.now.program.names) (spec.givens o.now (Obligation.Local step))) }
{
    append_note(b"given ", o, step.thread, step.point, text)?;
    append_crash(b"given ", o, text)
}

/// Appends the line of the goal.
fn append_goal(o: &Outline, obligation: Obligation, text: &mut Vec<u8>) -> Result<(), AllocError>
    requires { IsPlaced o.now.program obligation }
    ensures { OnOk result (text.new.items ≡ text.old.items ++ spec.goal_line o.now.program.names (spec.goal o.now obligation)) }
{
    match obligation {
        Obligation::Fresh => append_assertion(b"goal ", o, o.pre(), text),
        Obligation::Entry(t) => append_note(b"goal ", o, t, 1, text),
        Obligation::EntryCrash => append_crash(b"goal ", o, text),
        Obligation::Local(step) => append_note(b"goal ", o, step.thread, step.target, text),
        Obligation::Crash(_) => append_crash(b"goal ", o, text),
        Obligation::Interfere(_, at) => append_note(b"goal ", o, at.thread, at.point, text),
    }
}

/// Appends a label, the assertion at a point, and the line's end.
fn append_note(
    label: &[u8],
    o: &Outline,
    thread: u8,
    point: u8,
    text: &mut Vec<u8>,
) -> Result<(), AllocError>
    requires { IsPoint o.now.program thread point }
    ensures { OnOk result (text.new.items ≡ text.old.items ++ (label.now ++ spec.assertion_text o.now.program.names (note_at o.now thread point))) }
{
    append_assertion(label, o, o.note(PointId { thread, point }), text)
}

/// Appends a label, an assertion of the outline, and the line's end.
fn append_assertion(
    label: &[u8],
    o: &Outline,
    f: &Formula<ViewAtom>,
    text: &mut Vec<u8>,
) -> Result<(), AllocError>
    requires { IsOver o.now.program (plain f.now) }
    ensures { OnOk result (text.new.items ≡ text.old.items ++ (label.now ++ spec.assertion_text o.now.program.names (plain f.now))) }
{
    text.extend_from_slice(label)?;
    print_formula(f, o.program().names(), text)?;
    text.extend_from_slice(b"\n")
}

/// Appends a label, the crash formula before its expansion, and the line's end.
fn append_crash(label: &[u8], o: &Outline, text: &mut Vec<u8>) -> Result<(), AllocError>
    ensures { OnOk result (text.new.items ≡ text.old.items ++ (label.now ++ spec.crash_text o.now.program.names o.now.crash)) }
{
    text.extend_from_slice(label)?;
    text.extend_from_slice(b"crash ")?;
    print_crash(o.crash(), o.program().names(), text)?;
    text.extend_from_slice(b"\n")
}
