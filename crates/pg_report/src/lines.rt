//! Putting lines on a sink, one at a time.

ghost use Rattle.std.specs.Prelude.{◌≡◌, ◌≢◌, ◌≤◌, [], length};
ghost use Rattle.pg_report.specs.Reported.{Reports, ReportsLines};

use crate::fault::ReportFault;
use pg_io::{Sink, SinkFault};

/// Puts a line as one piece, if there is one.
pub fn put_line<K: Sink>(line: &[u8], out: &mut K) -> Result<(), ReportFault>
    ensures line { Reports line.now result (K.written out.old) (K.written out.new) (K.faults out.old) (K.faults out.new) }
    ensures faults { K.faults out.old ≤ K.faults out.new }
{
    if line.is_empty() {
        return Ok(());
    }
    match out.put(line) {
        Ok(()) => Ok(()),
        Err(SinkFault::Failed) => Err(ReportFault::Write),
        Err(SinkFault::NoMemory) => Err(ReportFault::NoMemory),
    }
}

/// Puts each line of a text as one piece.
pub fn put_lines<K: Sink>(text: &[u8], out: &mut K) -> Result<(), ReportFault>
    ensures lines { ReportsLines text.now result (K.written out.old) (K.written out.new) (K.faults out.old) (K.faults out.new) }
    ensures faults { K.faults out.old ≤ K.faults out.new }
{
    let mut rest = text;
    'lines: while !rest.is_empty() {
        let (line, behind) = rest.split_at(first_line(rest));
        put_line(line, out)?;
        rest = behind;
    }
    Ok(())
}

// The length of the first line of a text, its newline included.
fn first_line(text: &[u8]) -> usize
    requires { text.now ≢ [] }
    ensures some { 1 ≤ result }
    ensures within { result ≤ length text.now }
{
    for (i, byte) in text.iter().enumerate() {
        if *byte == b'\n' {
            return i + 1;
        }
    }
    text.len()
}
