//! The line of a text that is no document to go with an outline.

ghost use Rattle.std.specs.Prelude.{◌≡◌, ◌++◌, IfOk, decimal};
ghost use Rattle.pg_report.specs.Documents.{document_line};
ghost use Rattle.pg_report.specs.Reported.{Reports};

use crate::fault::ReportFault;
use crate::lines::put_line;
use itoa::Buffer;
use pg_document::DocFault;
use pg_io::Sink;
use std::alloc::{AllocError, Global};

/// Puts the line of a document's fault, as one piece. Want of memory as the fault has no line, and nothing is put.
pub fn report_doc_fault<K: Sink>(
    alloc: Global,
    fault: &DocFault,
    out: &mut K,
) -> Result<(), ReportFault>
    ensures { Reports (document_line fault.now) result (K.written out.old) (K.written out.new) (K.faults out.old) (K.faults out.new) }
{
    let line = fault_line(alloc, *fault)?;
    put_line(&line, out)
}

/// The line of a fault; an empty one for want of memory.
fn fault_line(alloc: Global, fault: DocFault) -> Result<Vec<u8>, AllocError>
    ensures { IfOk result (λ line. line.items ≡ document_line fault) }
{
    match fault {
        DocFault::Unexpected(place) => around(alloc, b"refused second ", place, b" unexpected\n"),
        DocFault::Version(n) => around(alloc, b"refused second version ", n, b"\n"),
        DocFault::NoMemory => Ok(Vec::new(alloc)),
    }
}

/// A number between two labels.
fn around(alloc: Global, front: &[u8], number: u32, behind: &[u8]) -> Result<Vec<u8>, AllocError>
    ensures { IfOk result (λ line. line.items ≡ front.now ++ (decimal number ++ behind.now)) }
{
    let mut line = Vec::from_slice(alloc, front)?;
    line.extend_from_slice(Buffer::new().format(number).as_bytes())?;
    line.extend_from_slice(behind)?;
    Ok(line)
}
