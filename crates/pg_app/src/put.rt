//! Putting texts on the sink, each with its status. What is promised of each function is that it puts what is due, and how the
//! status tells where it could not.

ghost use Rattle.std.specs.Prelude.{◌≡◌, ◌≢◌, ℕ, List};
ghost use Rattle.pg_outline_text.specs.Fault.{IsFaultOrMemory};
ghost use Rattle.pg_outline_text.specs.Text.{Tells};
ghost use Rattle.pg_report.specs.Documents.{document_line};
ghost use Rattle.pg_app.specs.Line.{too_long};
ghost use Rattle.pg_app.specs.Answer.{IsListed, IsRefusal};
ghost use Rattle.pg_app.specs.Put.{Puts, status_after};

use crate::line::too_long_line;
use crate::status::{NO_DOCUMENT, NO_MEMORY, NOT_WRITTEN, PRINTED, REFUSED, TOO_LONG};
use pg_document::DocFault;
use pg_io::{Sink, SinkFault};
use pg_outline::Outline;
use pg_outline_text::FileFault;
use pg_report::{ReportFault, report_doc_fault, report_file_fault, report_obligations};
use std::alloc::Global;

/// Puts the text of an outline's obligations.
pub fn list_obligations<K: Sink>(alloc: Global, outline: &Outline, out: &mut K) -> u8
    ensures { Puts (IsListed outline.now)
        result (K.written out.old) (K.written out.new) (K.faults out.old) (K.faults out.new) }
{
    reported(report_obligations(alloc, outline, out), PRINTED)
}

/// The status after a report, where this is that of its text.
pub fn reported(report: Result<(), ReportFault>, status: u8) -> u8
    ensures { result ≡ status_after report status }
{
    match report {
        Ok(()) => status,
        Err(ReportFault::Write) => NOT_WRITTEN,
        Err(ReportFault::NoMemory) => NO_MEMORY,
    }
}

/// Puts the line of the fault of a file that stands for no outline.
pub fn refuse_outline<K: Sink>(alloc: Global, fault: &FileFault, out: &mut K) -> u8
    ensures { (bytes : List ℕ) → Tells bytes fault.now → IsFaultOrMemory fault.now → Puts (IsRefusal bytes)
        result (K.written out.old) (K.written out.new) (K.faults out.old) (K.faults out.new) }
{
    match fault {
        FileFault::NoMemory => NO_MEMORY,
        fault => refuse(alloc, fault, out),
    }
}

// Puts the line of a fault that is none of memory.
fn refuse<K: Sink>(alloc: Global, fault: &FileFault, out: &mut K) -> u8
    requires { fault.now ≢ FileFault.NoMemory }
    ensures { (bytes : List ℕ) → Tells bytes fault.now → IsFaultOrMemory fault.now → Puts (IsRefusal bytes)
        result (K.written out.old) (K.written out.new) (K.faults out.old) (K.faults out.new) }
{
    match report_file_fault(alloc, fault, out) {
        Ok(()) => REFUSED,
        Err(ReportFault::Write) => NOT_WRITTEN,
        Err(ReportFault::NoMemory) => NO_MEMORY,
    }
}

/// Puts the line of the fault of a text that is no document.
pub fn refuse_document<K: Sink>(alloc: Global, fault: DocFault, out: &mut K) -> u8
    ensures { Puts (λ due text. (fault ≢ DocFault.NoMemory) × ((due ≡ 4) × (text ≡ document_line fault)))
        result (K.written out.old) (K.written out.new) (K.faults out.old) (K.faults out.new) }
{
    if fault == DocFault::NoMemory {
        return NO_MEMORY;
    }
    reported(report_doc_fault(alloc, &fault, out), NO_DOCUMENT)
}

/// Puts the line of a file that is longer than its limit.
pub fn refuse_length<K: Sink>(alloc: Global, name: &str, out: &mut K) -> u8
    ensures { Puts (λ status text. (status ≡ 10) × (text ≡ too_long name.now))
        result (K.written out.old) (K.written out.new) (K.faults out.old) (K.faults out.new) }
{
    match too_long_line(alloc, name) {
        Ok(line) => put_line(out, TOO_LONG, line.as_slice()),
        Err(_) => NO_MEMORY,
    }
}

/// Puts a line, and answers its status unless it could not be written.
pub fn put_line<K: Sink>(out: &mut K, status: u8, line: &[u8]) -> u8
    ensures { Puts (λ due text. (due ≡ status) × (text ≡ line.now))
        result (K.written out.old) (K.written out.new) (K.faults out.old) (K.faults out.new) }
{
    match out.put(line) {
        Ok(()) => status,
        Err(SinkFault::Failed) => NOT_WRITTEN,
        Err(SinkFault::NoMemory) => NO_MEMORY,
    }
}
