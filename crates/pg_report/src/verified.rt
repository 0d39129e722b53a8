//! The line of a verified derivation.

ghost use Rattle.std.specs.Prelude.{◌≡◌, ◌++◌, ◌≤◌, IfOk, OnOk, codes, decimal};
ghost use Rattle.pg_report.specs.Verified as spec;
ghost use Rattle.pg_report.specs.Reported.{Reports};

use crate::fault::ReportFault;
use crate::lines::put_line;
use crate::words::{append_counted, append_line};
use pg_derive::VerifyFault;
use pg_io::Sink;
use pg_tree::TreeFault;
use std::alloc::{AllocError, Global};

/// Puts the line of a verified derivation, as one piece. Want of memory as the fault has no line, and neither has want of room in a
/// trail: then nothing is put.
pub fn report_verified<K: Sink>(
    alloc: Global,
    verified: &Result<u32, VerifyFault>,
    out: &mut K,
) -> Result<(), ReportFault>
    ensures line { Reports (spec.verified_line verified.now) result (K.written out.old) (K.written out.new) (K.faults out.old) (K.faults out.new) }
    ensures faults { K.faults out.old ≤ K.faults out.new }
{
    let line = verified_line(alloc, verified)?;
    put_line(&line, out)
}

/// The line; an empty one where there is none.
fn verified_line(alloc: Global, verified: &Result<u32, VerifyFault>) -> Result<Vec<u8>, AllocError>
    ensures { IfOk result (λ line. line.items ≡ spec.verified_line verified.now) }
{
    let mut line = Vec::new(alloc);
    append_verified(verified, &mut line)?;
    Ok(line)
}

fn append_verified(
    verified: &Result<u32, VerifyFault>,
    line: &mut Vec<u8>,
) -> Result<(), AllocError>
    ensures { OnOk result (line.new.items ≡ line.old.items ++ spec.verified_line verified.now) }
{
    match verified {
        Ok(n) => append_line(b"verified ", *n, line),
        Err(VerifyFault::Tree { i, fault }) => append_tree(*i, *fault, line),
        Err(VerifyFault::Missing(i)) => append_line(b"missing ", *i, line),
        Err(VerifyFault::Extra(i)) => append_line(b"extra ", *i, line),
        Err(VerifyFault::NoMemory) => Ok(()),
    }
}

/// Appends the line of a refused tree.
fn append_tree(i: u32, fault: TreeFault, line: &mut Vec<u8>) -> Result<(), AllocError>
    ensures { OnOk result (line.new.items ≡ line.old.items ++ spec.tree_line i (spec.tree_fault fault)) }
{
    match fault {
        TreeFault::TrailFull(_) => Ok(()),
        TreeFault::BadLiteral(at) => append_named(i, at, b"bad literal", line),
        TreeFault::BadClause { line: at, n } => append_numbered(i, at, b"bad clause ", n, line),
        TreeFault::NotUnit { line: at, n } => append_numbered(i, at, b"not unit ", n, line),
        TreeFault::NoConflict(at) => append_named(i, at, b"no conflict", line),
        TreeFault::EndsEarly(at) => append_named(i, at, b"ends early", line),
        TreeFault::TooMuch(at) => append_named(i, at, b"too much", line),
    }
}

/// Appends the line of tree i, which has a fault of this name on line `at` of the derivation.
fn append_named(i: u32, at: u32, name: &[u8], line: &mut Vec<u8>) -> Result<(), AllocError>
    ensures { OnOk result (line.new.items ≡ line.old.items ++ (codes "refused " ++ (decimal i ++ (codes " " ++ spec.on_line (at, name.now))))) }
{
    append_place(i, at, line)?;
    line.extend_from_slice(name)?;
    line.extend_from_slice(b"\n")
}

/// The same of a fault that names a clause.
fn append_numbered(
    i: u32,
    at: u32,
    name: &[u8],
    n: u32,
    line: &mut Vec<u8>,
) -> Result<(), AllocError>
    ensures { OnOk result (line.new.items ≡ line.old.items ++ (codes "refused " ++ (decimal i ++ (codes " " ++ spec.on_line (at, name.now ++ decimal n))))) }
{
    append_place(i, at, line)?;
    append_line(name, n, line)
}

/// Appends that tree i is refused on line `at`.
fn append_place(i: u32, at: u32, line: &mut Vec<u8>) -> Result<(), AllocError>
    ensures { OnOk result (line.new.items ≡ line.old.items ++ (codes "refused " ++ (decimal i ++ (codes " line " ++ (decimal at ++ codes " "))))) }
{
    append_counted(b"refused ", i, line)?;
    append_counted(b" line ", at, line)?;
    line.extend_from_slice(b" ")
}
