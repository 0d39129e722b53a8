// Sinks in memory.
ghost use Rattle.std.specs.Prelude.{◌≡◌, ◌≢◌, ◌≤◌, ℕ, List, [], ◌++◌, Some, OnOk, OnErr, IsErrOf, IsOkUnless, if◌then◌else◌};
ghost use Rattle.std.specs.Bool.{OnTrue, OnFalse};
ghost use Rattle.pg_io.specs.Counts.{raised, Rose};
ghost use Rattle.pg_io.specs.Failing.{is_due};

use crate::failing::is_numbered;
use crate::outside::{Sink, SinkFault};
use std::alloc::Global;
use std::marker::Model;

/// A sink that keeps what is put into it, and fails at the calls whose numbers it was made with.
/// The calls of `put` are numbered from 1. A failing call appends nothing. This project's own.
#[derive(Drop)]
pub struct MemorySink {
    bytes: Vec<u8>,
    failing: Vec<u32>,
    calls: u64,
    failures: u64,
}

impl Model for MemorySink {
    ghost use Rattle.pg_io.specs.Page.{Page};

    ghost Value = { Page };

    ghost view = { λ s. record {
      bytes = s.bytes.items;
      failing = s.failing.items;
      calls = s.calls;
      failures = s.failures;
    } };
}

impl MemorySink {
    /// A sink with nothing written, whose calls with these numbers, counted from 1, fail.
    pub fn make(alloc: Global, failing: Vec<u32>) -> MemorySink
        ensures { result ≡ record { bytes = []; failing = failing.items; calls = 0; failures = 0 } }
    {
        MemorySink {
            bytes: Vec::new(alloc),
            failing,
            calls: 0,
            failures: 0,
        }
    }

    /// The bytes written so far.
    pub fn bytes(&self) -> &[u8]
        ensures { result.now ≡ self.now.bytes }
    {
        self.bytes.as_slice()
    }
}

impl Sink for MemorySink {
    ghost written = { λ s. Some s.bytes };

    ghost faults = { λ s. s.failures };

    fn put(&mut self, piece: &[u8]) -> Result<(), SinkFault>
        // as every sink
        ensures faults_stay { self.old.failures ≤ self.new.failures }
        ensures ok { OnOk result (self.new.bytes ≡ self.old.bytes ++ piece.now) }
        ensures err { OnErr result (self.new.bytes ≡ self.old.bytes) }
        ensures failed { result ≡ Err SinkFault.Failed → Rose self.old.failures self.new.failures }

        // which calls fail
        ensures numbered { OnTrue (is_due self.old.failing self.old.calls)
            (IsErrOf result SinkFault.Failed) }
        ensures unnumbered { OnFalse (is_due self.old.failing self.old.calls)
            (IsOkUnless result SinkFault.NoMemory) }

        // what stays, and the counts
        ensures failing { self.new.failing ≡ self.old.failing }
        ensures calls { self.new.calls ≡ raised 1 self.old.calls }
        ensures failures { self.new.failures ≡
            (if is_due self.old.failing self.old.calls
            then raised 1 self.old.failures else self.old.failures) }
    {
        self.calls = self.calls.saturating_add(1);
        if is_numbered(self.failing.as_slice(), self.calls) {
            self.failures = self.failures.saturating_add(1);
            return Err(SinkFault::Failed);
        }
        append(&mut self.bytes, piece)
    }
}

/// A sink that keeps what is put into it and never fails. This project's own.
#[derive(Drop)]
pub struct QuietSink {
    bytes: Vec<u8>,
}

impl Model for QuietSink {
    ghost Value = { List ℕ };

    ghost view = { λ s. s.bytes.items };
}

impl QuietSink {
    /// A sink with nothing written.
    pub fn make(alloc: Global) -> QuietSink
        ensures { result ≡ [] }
    {
        QuietSink {
            bytes: Vec::new(alloc),
        }
    }

    /// The bytes written so far.
    pub fn bytes(&self) -> &[u8]
        ensures { result.now ≡ self.now }
    {
        self.bytes.as_slice()
    }
}

impl Sink for QuietSink {
    ghost written = { λ s. Some s };

    ghost faults = { λ _. 0 };

    fn put(&mut self, piece: &[u8]) -> Result<(), SinkFault>
        ensures ok { OnOk result (self.new ≡ self.old ++ piece.now) }
        ensures err { OnErr result (self.new ≡ self.old) }
        ensures quiet { result ≢ Err SinkFault.Failed }
    {
        append(&mut self.bytes, piece)
    }
}

// Writes the piece after the bytes, or leaves them as they are.
fn append(bytes: &mut Vec<u8>, piece: &[u8]) -> Result<(), SinkFault>
    ensures ok { OnOk result (bytes.new.items ≡ bytes.old.items ++ piece.now) }
    ensures err { OnErr result (bytes.new.items ≡ bytes.old.items) }
    ensures memory { IsOkUnless result SinkFault.NoMemory }
{
    bytes
        .extend_from_slice(piece)
        .map_err(|_| SinkFault::NoMemory)
}
