//! The last line of a replay.

ghost use Rattle.std.specs.Prelude.{◌≡◌, ◌++◌, ◌≤◌, IfOk, OnOk, codes, decimal};
ghost use Rattle.pg_assertion_text.specs.Spelling.{location_name};
ghost use Rattle.pg_report.specs.Replayed as spec;
ghost use Rattle.pg_report.specs.Reported.{Reports};

use crate::fault::ReportFault;
use crate::lines::put_line;
use crate::obligations::append_point;
use crate::words::{append_counted, append_line};
use pg_io::Sink;
use pg_machine::StepFault;
use pg_outline::Outline;
use pg_program::Names;
use pg_replay::{ReplayFault, Replayed, Violation};
use pg_views::CrashFault;
use std::alloc::{AllocError, Global};

/// Puts the last line of a replay, as one piece. Want of memory and a failed sink have no line, and nothing is put.
pub fn report_replayed<K: Sink>(
    alloc: Global,
    o: &Outline,
    replayed: &Result<Replayed, ReplayFault>,
    out: &mut K,
) -> Result<(), ReportFault>
    ensures line { Reports (spec.replayed_line o.now.program.names replayed.now) result (K.written out.old) (K.written out.new) (K.faults out.old) (K.faults out.new) }
    ensures faults { K.faults out.old ≤ K.faults out.new }
{
    let line = replayed_line(alloc, o.program().names(), replayed)?;
    put_line(&line, out)
}

/// The line; an empty one where there is none.
fn replayed_line(
    alloc: Global,
    names: &Names,
    replayed: &Result<Replayed, ReplayFault>,
) -> Result<Vec<u8>, AllocError>
    ensures { IfOk result (λ line. line.items ≡ spec.replayed_line names.now replayed.now) }
{
    let mut line = Vec::new(alloc);
    append_replayed(names, replayed, &mut line)?;
    Ok(line)
}

fn append_replayed(
    names: &Names,
    replayed: &Result<Replayed, ReplayFault>,
    line: &mut Vec<u8>,
) -> Result<(), AllocError>
    ensures { OnOk result (line.new.items ≡ line.old.items ++ spec.replayed_line names.now replayed.now) }
{
    match replayed {
        Ok(found) => append_found(found.steps, found.first_violation, line),
        Err(ReplayFault::Step { line: at, fault }) => append_step(*at, *fault, line),
        Err(ReplayFault::Crash { line: at, fault }) => append_crash(names, *at, *fault, line),
        Err(ReplayFault::Write | ReplayFault::NoMemory) => Ok(()),
    }
}

/// Appends what was found after all steps.
fn append_found(
    steps: u32,
    violation: Option<Violation>,
    line: &mut Vec<u8>,
) -> Result<(), AllocError>
    ensures { OnOk result (line.new.items ≡ line.old.items ++ spec.found_line steps violation) }
{
    match violation {
        None => append_line(b"held ", steps, line),
        Some(Violation::Assertion { line: behind, at }) => {
            append_counted(b"violated line ", behind, line)?;
            line.extend_from_slice(b" at ")?;
            append_point(at.thread, at.point, line)?;
            line.extend_from_slice(b"\n")
        }
        Some(Violation::Crash { line: behind }) => {
            append_counted(b"violated line ", behind, line)?;
            line.extend_from_slice(b" crash\n")
        }
    }
}

/// Appends the line of a refused step.
fn append_step(at: u32, fault: StepFault, line: &mut Vec<u8>) -> Result<(), AllocError>
    ensures { OnOk result (line.new.items ≡ line.old.items ++ spec.refused_line at (spec.step_fault fault)) }
{
    match fault {
        StepFault::NoThread(n) => append_numbered(at, b"no thread ", n, line),
        StepFault::Ended => append_named(at, b"ended", line),
        StepFault::NoChoice => append_named(at, b"no choice", line),
        StepFault::ChoiceMissing => append_named(at, b"choice missing", line),
        StepFault::NotAPosition(p) => append_numbered(at, b"not a position ", p, line),
        StepFault::BelowCoherence { position, coh } => {
            append_paired(at, b"below coherence ", position, coh, line)
        }
        StepFault::Hidden { position, later } => {
            append_paired(at, b"hidden ", position, later, line)
        }
        StepFault::CasMustDiffer(v) => append_numbered(at, b"cas must differ ", u32::from(v), line),
        StepFault::CasNotLast(v) => append_numbered(at, b"cas not last ", u32::from(v), line),
        StepFault::MessagesFull => append_named(at, b"messages full", line),
        StepFault::NoMemory => Ok(()),
    }
}

/// Appends the line of a refused crash.
fn append_crash(
    names: &Names,
    at: u32,
    fault: CrashFault,
    line: &mut Vec<u8>,
) -> Result<(), AllocError>
    ensures { OnOk result (line.new.items ≡ line.old.items ++ spec.refused_line at (spec.crash_fault names.now fault)) }
{
    match fault {
        CrashFault::WrongLength { given, wanted } => {
            append_paired(at, b"wrong length ", given, wanted, line)
        }
        CrashFault::NotAPosition { x, position } => {
            append_unknown(at, name_of(names, x), position, line)
        }
        CrashFault::Overwritten { x, position, later } => {
            append_overwritten(at, name_of(names, x), position, later, line)
        }
        CrashFault::NoMemory => Ok(()),
    }
}

/// Appends the line that a line is refused for a fault of this name.
fn append_named(at: u32, name: &[u8], line: &mut Vec<u8>) -> Result<(), AllocError>
    ensures { OnOk result (line.new.items ≡ line.old.items ++ spec.refused at name.now) }
{
    append_place(at, line)?;
    line.extend_from_slice(name)?;
    line.extend_from_slice(b"\n")
}

/// The same of a fault that has a number.
fn append_numbered(at: u32, name: &[u8], n: u32, line: &mut Vec<u8>) -> Result<(), AllocError>
    ensures { OnOk result (line.new.items ≡ line.old.items ++ spec.refused at (name.now ++ decimal n)) }
{
    append_place(at, line)?;
    append_line(name, n, line)
}

/// The same of a fault that has two numbers.
fn append_paired(at: u32, name: &[u8], a: u32, b: u32, line: &mut Vec<u8>) -> Result<(), AllocError>
    ensures { OnOk result (line.new.items ≡ line.old.items ++ spec.refused at (name.now ++ spec.two_numbers a b)) }
{
    append_place(at, line)?;
    append_two(name, a, b, line)
}

/// Appends the line of a position that the location of this name has not.
fn append_unknown(at: u32, name: &str, p: u32, line: &mut Vec<u8>) -> Result<(), AllocError>
    ensures { OnOk result (line.new.items ≡ line.old.items ++ spec.refused at (codes "not a position " ++ (name.now ++ (codes " " ++ decimal p)))) }
{
    append_location(at, b"not a position ", name, line)?;
    append_line(b" ", p, line)?;
    Ok(())
}

/// Appends the line of a position of the location of this name, which is overwritten at another one.
fn append_overwritten(
    at: u32,
    name: &str,
    p: u32,
    later: u32,
    line: &mut Vec<u8>,
) -> Result<(), AllocError>
    ensures { OnOk result (line.new.items ≡ line.old.items ++ spec.refused at (codes "overwritten " ++ (name.now ++ (codes " " ++ spec.two_numbers p later)))) }
{
    append_location(at, b"overwritten ", name, line)?;
    append_two(b" ", p, later, line)?;
    Ok(())
}

/// Appends that a line is refused, with a label and the name of a location.
fn append_location(at: u32, label: &[u8], name: &str, line: &mut Vec<u8>) -> Result<(), AllocError>
    ensures { OnOk result (line.new.items ≡ line.old.items ++ (codes "refused line " ++ (decimal at ++ (codes " " ++ (label.now ++ name.now))))) }
{
    append_place(at, line)?;
    line.extend_from_slice(label)?;
    line.extend_from_slice(name.as_bytes())
}

/// The name of a location; an empty one, where there is no such location.
fn name_of(names: &Names, x: u8) -> &str
    ensures { result.now ≡ location_name names.now x }
{
    if x < names.locations() {
        names.location_name(x)
    } else {
        ""
    }
}

/// Appends that a line is refused.
fn append_place(at: u32, line: &mut Vec<u8>) -> Result<(), AllocError>
    ensures { OnOk result (line.new.items ≡ line.old.items ++ (codes "refused line " ++ (decimal at ++ codes " "))) }
{
    append_counted(b"refused line ", at, line)?;
    line.extend_from_slice(b" ")
}

/// Appends a label and two numbers, and ends the line.
fn append_two(label: &[u8], a: u32, b: u32, line: &mut Vec<u8>) -> Result<(), AllocError>
    ensures { OnOk result (line.new.items ≡ line.old.items ++ (label.now ++ (spec.two_numbers a b ++ codes "\n"))) }
{
    append_counted(label, a, line)?;
    append_line(b" ", b, line)
}
