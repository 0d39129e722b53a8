// Rooms in memory.
ghost use Rattle.std.specs.Prelude.{◌≡◌, ◌≢◌, ◌≤◌, ◌<◌, ℕ, List, [], length, Some, OnOk, OnErr, IsNone, IfSome, IsErrOf, IsOkUnless, option_copied};
ghost use Rattle.std.specs.Bool.{OnTrue, OnFalse};
ghost use Rattle.pg_io.specs.Counts.{raised, Rose, RoseBy};
ghost use Rattle.pg_io.specs.Told.{IsTooLong};
ghost use Rattle.pg_io.specs.Shelf.{first_listed, listed_or_empty, entries, faults_of, after_fetch};
ghost use Rattle.pg_io.specs.Failing.{is_due};

use crate::failing::is_numbered;
use crate::outside::{Room, RoomFault};
use std::marker::Model;

/// A room over a list of names, each with its bytes. Of a name listed twice the first counts. The
/// calls of `fetch` are numbered from 1; a call whose number the room was made with fails, and so
/// does a fetch of a name that is not listed. The room tells the bytes of the listed names, and
/// nothing of any other. A listed name's count of faults is that of the calls that failed by their
/// number; any other name's is that of all failed calls. So a fetch that fails only because its
/// name is missing raises no listed name's count. This project's own.
#[derive(Drop)]
pub struct MemoryRoom {
    files: Vec<(String, Vec<u8>)>,
    failing: Vec<u32>,
    calls: u64,
    failures: u64,
    by_number: u64,
    taken: u64,
}

impl Model for MemoryRoom {
    ghost use Rattle.pg_io.specs.Shelf.{Shelf, entries};

    ghost Value = { Shelf };

    ghost view = { λ r. record {
      files = entries r.files.items;
      failing = r.failing.items;
      calls = r.calls;
      failures = r.failures;
      by_number = r.by_number;
      taken = r.taken;
    } };
}

impl MemoryRoom {
    /// A room with these files, whose calls with these numbers, counted from 1, fail.
    pub fn make(files: Vec<(String, Vec<u8>)>, failing: Vec<u32>) -> MemoryRoom
        ensures { result ≡ record {
          files = entries files.items;
          failing = failing.items;
          calls = 0;
          failures = 0;
          by_number = 0;
          taken = 0;
        } }
    {
        MemoryRoom {
            files,
            failing,
            calls: 0,
            failures: 0,
            by_number: 0,
            taken: 0,
        }
    }
}

impl Room for MemoryRoom {
    ghost told = { λ r name. first_listed r.files name };

    ghost faults = { faults_of };

    ghost taken = { λ r. r.taken };

    fn fetch(&mut self, name: &str, limit: u64, into: &mut Vec<u8>) -> Result<(), RoomFault>
        requires { into.old.items ≡ [] }

        // as every room
        ensures told { (n : List ℕ) → first_listed self.new.files n ≡ first_listed self.old.files n }
        ensures faults_stay { (n : List ℕ) → faults_of self.old n ≤ faults_of self.new n }
        ensures taken_stays { self.old.taken ≤ self.new.taken }
        ensures within { OnOk result (length into.new.items ≤ limit) }
        ensures bytes { OnOk result (first_listed self.old.files name.now ≡ Some into.new.items) }
        ensures empty { OnErr result (into.new.items ≡ []) }
        ensures failed { result ≡ Err RoomFault.Failed →
            Rose (faults_of self.old name.now) (faults_of self.new name.now) }
        ensures too_long { (n : ℕ) → result ≡ Err (RoomFault.TooLong n) →
            (limit < n) × RoseBy n self.old.taken self.new.taken
            × IsTooLong (first_listed self.old.files name.now) limit }

        // when each answer comes
        ensures numbered { OnTrue (is_due self.old.failing self.old.calls)
            (IsErrOf result RoomFault.Failed) }
        ensures unlisted { IsNone (first_listed self.old.files name.now) →
            IsErrOf result RoomFault.Failed }
        ensures long { OnFalse (is_due self.old.failing self.old.calls)
            (IfSome (first_listed self.old.files name.now) (λ bytes.
            limit < length bytes → IsErrOf result (RoomFault.TooLong (length bytes)))) }
        ensures fits { OnFalse (is_due self.old.failing self.old.calls)
            (IfSome (first_listed self.old.files name.now) (λ bytes.
            length bytes ≤ limit → IsOkUnless result RoomFault.NoMemory)) }

        // the room afterwards
        ensures state { self.new ≡ after_fetch self.old name.now }
    {
        self.calls = self.calls.saturating_add(1);
        if is_numbered(self.failing.as_slice(), self.calls) {
            self.failures = self.failures.saturating_add(1);
            self.by_number = self.by_number.saturating_add(1);
            return Err(RoomFault::Failed);
        }
        match find_listed(self.files.as_slice(), name) {
            Some(bytes) => hand_over(bytes, limit, into, &mut self.taken),
            None => {
                self.failures = self.failures.saturating_add(1);
                Err(RoomFault::Failed)
            }
        }
    }
}

/// A memory room without failing calls, in which a name that is not listed is an empty file. Its
/// counts of faults are the constant 0, so it never answers `Failed`. This project's own.
#[derive(Drop)]
pub struct QuietRoom {
    files: Vec<(String, Vec<u8>)>,
    taken: u64,
}

impl Model for QuietRoom {
    ghost use Rattle.pg_io.specs.Shelf.{QuietShelf, entries};

    ghost Value = { QuietShelf };

    ghost view = { λ r. record { files = entries r.files.items; taken = r.taken } };
}

impl QuietRoom {
    /// A room with these files.
    pub fn make(files: Vec<(String, Vec<u8>)>) -> QuietRoom
        ensures { result ≡ record { files = entries files.items; taken = 0 } }
    {
        QuietRoom { files, taken: 0 }
    }
}

impl Room for QuietRoom {
    ghost told = { λ r name. Some (listed_or_empty r.files name) };

    ghost faults = { λ _ _. 0 };

    ghost taken = { λ r. r.taken };

    fn fetch(&mut self, name: &str, limit: u64, into: &mut Vec<u8>) -> Result<(), RoomFault>
        requires { into.old.items ≡ [] }

        // as every room
        ensures taken_stays { self.old.taken ≤ self.new.taken }
        ensures within { OnOk result (length into.new.items ≤ limit) }
        ensures bytes { OnOk result (into.new.items ≡ listed_or_empty self.old.files name.now) }
        ensures empty { OnErr result (into.new.items ≡ []) }
        ensures too_long { (n : ℕ) → result ≡ Err (RoomFault.TooLong n) →
            (limit < n) × RoseBy n self.old.taken self.new.taken }

        // when each answer comes
        ensures quiet { result ≢ Err RoomFault.Failed }
        ensures long { limit < length (listed_or_empty self.old.files name.now) →
            IsErrOf result (RoomFault.TooLong (length (listed_or_empty self.old.files name.now))) }
        ensures fits { length (listed_or_empty self.old.files name.now) ≤ limit →
            IsOkUnless result RoomFault.NoMemory }

        // the room afterwards
        ensures state { self.new ≡ record self.old {
          taken = raised (length (listed_or_empty self.old.files name.now)) self.old.taken;
        } }
    {
        let bytes = find_listed(self.files.as_slice(), name).unwrap_or(&[]);
        hand_over(bytes, limit, into, &mut self.taken)
    }
}

// The bytes of the first entry with this name.
fn find_listed<'a>(files: &'a [(String, Vec<u8>)], name: &str) -> Option<&'a [u8]>
    ensures { option_copied result ≡ first_listed (entries files.now) name.now }
{
    for (listed, bytes) in files {
        if listed.as_str() == name {
            return Some(bytes.as_slice());
        }
    }
    None
}

// Answers a fetch of a file with these bytes, all of which count as taken.
fn hand_over(bytes: &[u8], limit: u64, into: &mut Vec<u8>, taken: &mut u64) -> Result<(), RoomFault>
    requires { into.old.items ≡ [] }
    ensures ok { OnOk result (into.new.items ≡ bytes.now) }
    ensures err { OnErr result (into.new.items ≡ []) }
    ensures long { limit < length bytes.now → IsErrOf result (RoomFault.TooLong (length bytes.now)) }
    ensures fits { length bytes.now ≤ limit → IsOkUnless result RoomFault.NoMemory }
    ensures taken { taken.new ≡ raised (length bytes.now) taken.old }
    ensures grows { taken.old ≤ taken.new }
    ensures quiet { result ≢ Err RoomFault.Failed }
{
    let length = bytes.len() as u64;
    *taken = taken.saturating_add(length);
    if length > limit {
        return Err(RoomFault::TooLong(length));
    }
    into.extend_from_slice(bytes)
        .map_err(|_| RoomFault::NoMemory)
}
