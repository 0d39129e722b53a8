//! Putting lines on a sink.

ghost use Rattle.std.specs.Prelude.{◌≡◌, ◌≤◌};
ghost use Rattle.pg_derivation.specs.Text.{header_text, obligation_text, end_text};
ghost use Rattle.pg_derive.specs.Puts.{Puts};

use crate::fault::DeriveFault;
use pg_derivation::{append_end, append_header, append_obligation};
use pg_io::{Sink, SinkFault};

/// Puts a line as one piece.
pub fn put<K: Sink>(line: &[u8], out: &mut K) -> Result<(), DeriveFault>
    ensures line { Puts (λ _ text. text ≡ line.now) (λ text. text ≡ line.now) result (K.written out.old) (K.written out.new) (K.faults out.old) (K.faults out.new) }
    ensures faults { K.faults out.old ≤ K.faults out.new }
{
    match out.put(line) {
        Ok(()) => Ok(()),
        Err(SinkFault::Failed) => Err(DeriveFault::Write),
        Err(SinkFault::NoMemory) => Err(DeriveFault::NoMemory),
    }
}

/// Puts the header.
pub fn put_header<K: Sink>(line: &mut Vec<u8>, out: &mut K) -> Result<(), DeriveFault>
    ensures line { Puts (λ _ text. text ≡ header_text) (λ text. text ≡ header_text) result (K.written out.old) (K.written out.new) (K.faults out.old) (K.faults out.new) }
    ensures faults { K.faults out.old ≤ K.faults out.new }
{
    line.clear();
    append_header(line)?;
    put(line, out)
}

/// Puts the line of an obligation.
pub fn put_obligation<K: Sink>(i: u32, line: &mut Vec<u8>, out: &mut K) -> Result<(), DeriveFault>
    ensures line { Puts (λ _ text. text ≡ obligation_text i) (λ text. text ≡ obligation_text i) result (K.written out.old) (K.written out.new) (K.faults out.old) (K.faults out.new) }
    ensures faults { K.faults out.old ≤ K.faults out.new }
{
    line.clear();
    append_obligation(line, i)?;
    put(line, out)
}

/// Puts the last line.
pub fn put_last<K: Sink>(line: &mut Vec<u8>, out: &mut K) -> Result<(), DeriveFault>
    ensures line { Puts (λ _ text. text ≡ end_text) (λ text. text ≡ end_text) result (K.written out.old) (K.written out.new) (K.faults out.old) (K.faults out.new) }
    ensures faults { K.faults out.old ≤ K.faults out.new }
{
    line.clear();
    append_end(line)?;
    put(line, out)
}
