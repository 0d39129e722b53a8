// A real file system as a room, and a real standard output as a sink.
ghost use Rattle.std.specs.Prelude.{◌≡◌, ◌≢◌, ◌≤◌, ◌<◌, ℕ, [], length, None, Ok, Err, OnOk, OnErr, IfOk, IsOkUnless};
ghost use Rattle.pg_io.specs.Counts.{raised, RoseBy};
ghost use Rattle.pg_io.specs.Told.{IsTold, IsTooLong};

use crate::outside::{Room, RoomFault, Sink, SinkFault};
use std::fs;
use std::io::{self, Read};
use std::marker::Model;
use std::rt::Files;

// How many bytes one read of a file asks for.
const PIECE: usize = 4096;

/// The files of a file system, by their paths. It tells nothing of what is in them. A file that is
/// missing, is a folder or cannot be read is a fault, and so is a read that a signal cut short. It
/// has one count of faults for all names, and a count of the bytes read, which for a file that is
/// longer than the limit is a few thousand above the limit at most. This project's own.
#[derive(Drop)]
pub struct FileRoom<'a, R: Files> {
    files: &'a R,
    faults: u64,
    taken: u64,
}

impl<'a, R: Files> Model for FileRoom<'a, R> {
    ghost use Rattle.pg_io.specs.Folder.{Folder};

    ghost Value = { Folder };

    ghost view = { λ r. record { faults = r.faults; taken = r.taken } };
}

impl<R: Files> FileRoom<'_, R> {
    /// A room over the files that `rt` reaches.
    pub fn make(rt: &R) -> FileRoom<'_, R>
        ensures { result ≡ record { faults = 0; taken = 0 } }
    {
        FileRoom {
            files: rt,
            faults: 0,
            taken: 0,
        }
    }
}

impl<R: Files> Room for FileRoom<'_, R> {
    ghost told = { λ _ _. None };

    ghost faults = { λ r _. r.faults };

    ghost taken = { λ r. r.taken };

    fn fetch(&mut self, name: &str, limit: u64, into: &mut Vec<u8>) -> Result<(), RoomFault>
        requires { into.old.items ≡ [] }

        // as every room that tells nothing
        ensures faults_stay { self.old.faults ≤ self.new.faults }
        ensures taken_stays { self.old.taken ≤ self.new.taken }
        ensures within { OnOk result (length into.new.items ≤ limit) }
        ensures empty { OnErr result (into.new.items ≡ []) }
        ensures too_long { (n : ℕ) → result ≡ Err (RoomFault.TooLong n) →
            (limit < n) × RoseBy n self.old.taken self.new.taken }

        // the counts: bytes also where the file is read whole, and faults at `Failed` alone
        ensures counted { OnOk result (RoseBy (length into.new.items) self.old.taken self.new.taken) }
        ensures failed { result ≡ Err RoomFault.Failed → self.new.faults ≡ raised 1 self.old.faults }
        ensures others { result ≢ Err RoomFault.Failed → self.new.faults ≡ self.old.faults }
    {
        let opened = fs::open(self.files, name);
        let answer = read_opened(opened, limit, into, &mut self.taken);
        if answer == Err(RoomFault::Failed) {
            self.faults = self.faults.saturating_add(1);
        }
        answer
    }
}

/// Standard output. It tells nothing of what was written, and counts the puts that failed; a sink
/// that takes nothing of a piece that is not empty is a fault. This project's own.
#[derive(Drop)]
pub struct StdSink<'a, R: Print> {
    output: &'a R,
    faults: u64,
}

impl<'a, R: Print> Model for StdSink<'a, R> {
    ghost use Rattle.std.specs.Prelude.{ℕ};

    ghost Value = { ℕ };

    ghost view = { λ s. s.faults };
}

impl<R: Print> StdSink<'_, R> {
    /// A sink over the standard output of `rt`.
    pub fn make(rt: &R) -> StdSink<'_, R>
        ensures { result ≡ 0 }
    {
        StdSink {
            output: rt,
            faults: 0,
        }
    }
}

impl<R: Print> Sink for StdSink<'_, R> {
    ghost written = { λ _. None };

    ghost faults = { λ s. s };

    fn put(&mut self, piece: &[u8]) -> Result<(), SinkFault>
        ensures faults_stay { self.old ≤ self.new }
        ensures ok { OnOk result (self.new ≡ self.old) }
        ensures failed { OnErr result (self.new ≡ raised 1 self.old) }
        ensures real { IsOkUnless result SinkFault.Failed }
    {
        put_answer(self.output.write_all(piece), &mut self.faults)
    }
}

// What a put answers where the output answered this, and the count of faults after it.
fn put_answer(written: io::Result<()>, faults: &mut u64) -> Result<(), SinkFault>
    ensures ok { OnOk written ((result ≡ Ok tt) × (faults.new ≡ faults.old)) }
    ensures err { OnErr written ((result ≡ Err SinkFault.Failed) × (faults.new ≡ raised 1 faults.old)) }
    ensures stays { faults.old ≤ faults.new }
{
    match written {
        Ok(()) => Ok(()),
        Err(_) => {
            *faults = faults.saturating_add(1);
            Err(SinkFault::Failed)
        }
    }
}

// Reads the file that was opened. One that could not be opened fails as one that cannot be read does.
fn read_opened<F: Read + Drop>(
    opened: io::Result<F>,
    limit: u64,
    into: &mut Vec<u8>,
    taken: &mut u64,
) -> Result<(), RoomFault>
    requires { into.old.items ≡ [] }
    ensures refused { OnErr opened (result ≡ Err RoomFault.Failed) }
    ensures within { OnOk result (length into.new.items ≤ limit) }
    ensures bytes { IfOk opened (λ file. OnOk result (IsTold (F.remaining file) into.new.items)) }
    ensures empty { OnErr result (into.new.items ≡ []) }
    ensures taken_stays { taken.old ≤ taken.new }
    ensures counted { OnOk result (RoseBy (length into.new.items) taken.old taken.new) }
    ensures too_long { (n : ℕ) → result ≡ Err (RoomFault.TooLong n) →
        (limit < n) × RoseBy n taken.old taken.new }
{
    match opened {
        Ok(mut file) => read_within(&mut file, limit, into, taken),
        Err(_) => Err(RoomFault::Failed),
    }
}

/// Reads a file, or any reader, to its end into the empty vector, or until it is longer than the
/// limit. The bytes that are read are counted in `taken`. After a refusal the vector is empty again.
/// This project's own.
// Each turn of the loop takes a byte at least, so it ends.
pub fn read_within<F: Read>(
    file: &mut F,
    limit: u64,
    into: &mut Vec<u8>,
    taken: &mut u64,
) -> Result<(), RoomFault>
    requires { into.old.items ≡ [] }
    ensures within { OnOk result (length into.new.items ≤ limit) }
    ensures bytes { OnOk result (IsTold (F.remaining file.old) into.new.items) }
    ensures empty { OnErr result (into.new.items ≡ []) }
    ensures taken_stays { taken.old ≤ taken.new }
    ensures counted { OnOk result (RoseBy (length into.new.items) taken.old taken.new) }
    ensures too_long { (n : ℕ) → result ≡ Err (RoomFault.TooLong n) →
        (limit < n) × RoseBy n taken.old taken.new × IsTooLong (F.remaining file.old) limit }
{
    let mut piece = [0u8; PIECE];
    loop {
        let count = match file.read(&mut piece) {
            Ok(0) => return Ok(()),
            Ok(count) => count,
            Err(_) => {
                into.clear();
                return Err(RoomFault::Failed);
            }
        };
        *taken = taken.saturating_add(count as u64);
        let read = into.len() as u64 + count as u64;
        if read > limit {
            into.clear();
            return Err(RoomFault::TooLong(read));
        }
        if into.extend_from_slice(&piece[..count]).is_err() {
            into.clear();
            return Err(RoomFault::NoMemory);
        }
    }
}
