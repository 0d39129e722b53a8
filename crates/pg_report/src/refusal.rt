//! The line of a file that stands for no outline.

ghost use Rattle.std.specs.Prelude.{◌≡◌, ◌++◌, IfOk, OnOk, is_none, codes, decimal};
ghost use Rattle.pg_program.specs.Fault as program;
ghost use Rattle.pg_outline_text.specs.Fault.{plain_fault};
ghost use Rattle.pg_report.specs.Refusal.{kind_text, text_fault, program_text, outline_fault, words_of, line_of};
ghost use Rattle.pg_report.specs.Reported.{Reports};

use crate::fault::ReportFault;
use crate::lines::put_line;
use crate::words::{append_counted, append_number};
use itoa::Buffer;
use pg_io::Sink;
use pg_lex::{TextFault, TextKind};
use pg_outline::OutlineFault;
use pg_outline_text::FileFault;
use pg_program::{PointId, ProgramFault};
use std::alloc::{AllocError, Global};

/// Puts the line of a file's fault, as one piece. Want of memory as the fault has no line, and nothing is put.
pub fn report_file_fault<K: Sink>(
    alloc: Global,
    fault: &FileFault,
    out: &mut K,
) -> Result<(), ReportFault>
    ensures { Reports (line_of (plain_fault fault.now)) result (K.written out.old) (K.written out.new) (K.faults out.old) (K.faults out.new) }
{
    let line = refusal_line(alloc, fault)?;
    put_line(&line, out)
}

/// The line of a fault; an empty one for want of memory.
fn refusal_line(alloc: Global, fault: &FileFault) -> Result<Vec<u8>, AllocError>
    ensures { IfOk result (λ line. line.items ≡ line_of (plain_fault fault.now)) }
{
    let mut line = Vec::new(alloc);
    append_refusal(fault, &mut line)?;
    Ok(line)
}

/// Appends the line of a fault; nothing for want of memory.
fn append_refusal(fault: &FileFault, line: &mut Vec<u8>) -> Result<(), AllocError>
    ensures { OnOk result (line.new.items ≡ line.old.items ++ line_of (plain_fault fault.now)) }
{
    if is_memory(fault) {
        return Ok(());
    }
    line.extend_from_slice(b"refused ")?;
    append_fault(fault, line)?;
    line.extend_from_slice(b"\n")
}

/// Whether the fault is want of memory.
fn is_memory(fault: &FileFault) -> bool
    ensures { result ≡ is_none (plain_fault fault.now) }
{
    matches!(
        fault,
        FileFault::NoMemory
            | FileFault::Text(TextFault::NoMemory)
            | FileFault::Program(ProgramFault::NoMemory)
            | FileFault::Outline(OutlineFault::NoMemory)
    )
}

/// Appends what a fault is called.
fn append_fault(fault: &FileFault, line: &mut Vec<u8>) -> Result<(), AllocError>
    ensures { OnOk result (line.new.items ≡ line.old.items ++ words_of (plain_fault fault.now)) }
{
    match fault {
        FileFault::Text(fault) => append_text_fault(*fault, line),
        FileFault::Version(n) => append_counted(b"version ", *n, line),
        FileFault::Program(fault) => append_program_fault(fault, line),
        FileFault::Outline(fault) => append_outline_fault(*fault, line),
        FileFault::NoMemory => Ok(()),
    }
}

/// Appends a place and the fault there.
fn append_text_fault(fault: TextFault, line: &mut Vec<u8>) -> Result<(), AllocError>
    ensures { OnOk result (line.new.items ≡ line.old.items ++ text_fault fault) }
{
    match fault {
        TextFault::At { place, kind } => append_placed(place, called(kind), line),
        TextFault::NoMemory => Ok(()),
    }
}

/// Appends a place, and what the fault there is called.
fn append_placed(place: u32, name: &[u8], line: &mut Vec<u8>) -> Result<(), AllocError>
    ensures { OnOk result (line.new.items ≡ line.old.items ++ (decimal place ++ (codes " " ++ name.now))) }
{
    append_number(place, line)?;
    line.extend_from_slice(b" ")?;
    line.extend_from_slice(name)
}

fn called(kind: TextKind) -> &'static [u8]
    ensures { result.now ≡ kind_text kind }
{
    match kind {
        TextKind::NotAscii => b"not ascii",
        TextKind::BadCharacter => b"bad character",
        TextKind::NumberTooLarge => b"number too large",
        TextKind::NameTooLong => b"name too long",
        TextKind::Unexpected => b"unexpected",
        TextKind::UnknownName => b"unknown name",
        TextKind::Redeclared => b"redeclared",
        TextKind::TooMany => b"too many",
        TextKind::TooDeep => b"too deep",
    }
}

/// Appends a fault of the program.
fn append_program_fault(fault: &ProgramFault, line: &mut Vec<u8>) -> Result<(), AllocError>
    ensures { OnOk result (line.new.items ≡ line.old.items ++ program_text (program.plain_fault fault.now)) }
{
    match fault {
        ProgramFault::DomainSize(n) => append_counted(b"domain ", *n, line),
        ProgramFault::UnknownThread(t) => append_counted(b"unknown thread ", *t, line),
        ProgramFault::ForeignRegister(name) => {
            append_named(b"foreign register ", name.as_str(), b"", line)
        }
        ProgramFault::AuxInProgram(name) => {
            append_named(b"auxiliary ", name.as_str(), b" in program", line)
        }
        ProgramFault::AuxTwice(name) => append_named(b"auxiliary ", name.as_str(), b" twice", line),
        ProgramFault::ValueOutOfDomain(v) => append_counted(b"value ", *v, line),
        ProgramFault::ExpressionNames(at) => append_point(*at, line),
        ProgramFault::NoMemory => Ok(()),
    }
}

/// Appends a fault of the formulas.
fn append_outline_fault(fault: OutlineFault, line: &mut Vec<u8>) -> Result<(), AllocError>
    ensures { OnOk result (line.new.items ≡ line.old.items ++ outline_fault fault) }
{
    match fault {
        OutlineFault::ValueOutOfDomain(v) => append_counted(b"value ", v, line),
        OutlineFault::UnknownThread(t) => append_counted(b"unknown thread ", t, line),
        OutlineFault::CrashLocations(n) => append_counted(b"crash locations ", n, line),
        OutlineFault::CrashNodes(n) => append_nodes(n, line),
        OutlineFault::NoMemory => Ok(()),
    }
}

/// Appends how many nodes a crash formula would have.
fn append_nodes(n: u64, line: &mut Vec<u8>) -> Result<(), AllocError>
    ensures { OnOk result (line.new.items ≡ line.old.items ++ (codes "crash nodes " ++ decimal n)) }
{
    line.extend_from_slice(b"crash nodes ")?;
    line.extend_from_slice(Buffer::new().format(n).as_bytes())
}

/// Appends a name between two labels.
fn append_named(
    label: &[u8],
    name: &str,
    behind: &[u8],
    line: &mut Vec<u8>,
) -> Result<(), AllocError>
    ensures { OnOk result (line.new.items ≡ line.old.items ++ (label.now ++ (name.now ++ behind.now))) }
{
    line.extend_from_slice(label)?;
    line.extend_from_slice(name.as_bytes())?;
    line.extend_from_slice(behind)
}

/// Appends the point whose statement reads too many names.
fn append_point(at: PointId, line: &mut Vec<u8>) -> Result<(), AllocError>
    ensures { OnOk result (line.new.items ≡ line.old.items ++ (codes "expression " ++ (decimal at.thread ++ (codes "." ++ decimal at.point)))) }
{
    append_small(b"expression ", at.thread, line)?;
    append_small(b".", at.point, line)
}

/// Appends a label and the number of a thread or a point.
fn append_small(label: &[u8], number: u8, line: &mut Vec<u8>) -> Result<(), AllocError>
    ensures { OnOk result (line.new.items ≡ line.old.items ++ (label.now ++ decimal number)) }
{
    append_counted(label, u32::from(number), line)
}
