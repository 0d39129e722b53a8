//! Fetching the files of commands. What is promised is what each file is read as, or that the call ends with its refusal.

ghost use Rattle.std.specs.Prelude.{◌≡◌, ◌≢◌, ◌≤◌, Ok, List, ℕ, length, IfOk, IfErr, OnOk};
ghost use Rattle.pg_outline_text.specs.Text.{StandsFor};
ghost use Rattle.pg_app.specs.File.{file_of, longest, outline_file, derivation_file, schedule_file};
ghost use Rattle.pg_app.specs.File as spec;
ghost use Rattle.pg_app.specs.Answer.{IsRefusal, IsNoDocument, whole};
ghost use Rattle.pg_app.specs.Put.{Puts};
ghost use Rattle.pg_app.specs.Run.{Fetches};
ghost use Rattle.pg_app.specs.Stops.{IsFetched, IsFetchedAs, Stops};

use crate::file::Kind;
use crate::put::{refuse_document, refuse_length, refuse_outline};
use crate::status::{NO_MEMORY, NOT_FETCHED};
use pg_derivation::{Derivation, parse_derivation};
use pg_io::{Room, RoomFault, Sink};
use pg_outline::Outline;
use pg_outline_text::parse_outline;
use pg_schedule::{Schedule, parse_schedule};
use std::alloc::Global;

/// The outline in the file of this name, or the status that the call ends with, where the refusal was put.
pub fn fetched_outline<R: Room, K: Sink>(
    alloc: Global,
    name: &str,
    room: &mut R,
    out: &mut K,
) -> Result<Outline, u8>
    ensures fetched { IfOk result (λ o. IsFetched (R.told room.old) (R.taken room.old) (R.taken room.new) (outline_file name.now) o) }
    ensures unwritten { OnOk result (out.new ≡ out.old) }
    ensures stops { IfErr result (λ status. Stops (R.told room.old) (outline_file name.now)
        (R.faults room.old name.now) (R.faults room.new name.now) (R.taken room.old) (R.taken room.new)
        status (K.written out.old) (K.written out.new) (K.faults out.old) (K.faults out.new)) }
    ensures told { (n : List ℕ) → R.told room.new n ≡ R.told room.old n }
    ensures faults { (n : List ℕ) → R.faults room.old n ≤ R.faults room.new n }
    ensures taken { R.taken room.old ≤ R.taken room.new }
{
    match fetched(alloc, name, Kind::Outline, room, out) {
        Ok(bytes) => read_outline(alloc, bytes.as_slice(), out),
        Err(status) => Err(status),
    }
}

/// The derivation in the file of this name, or the status that the call ends with, where the refusal was put.
pub fn fetched_derivation<R: Room, K: Sink>(
    alloc: Global,
    name: &str,
    room: &mut R,
    out: &mut K,
) -> Result<Derivation, u8>
    ensures fetched { IfOk result (λ d. IsFetchedAs spec.derivation_in (R.told room.old) (R.taken room.old) (R.taken room.new) (derivation_file name.now) d) }
    ensures unwritten { OnOk result (out.new ≡ out.old) }
    ensures stops { IfErr result (λ status. Stops (R.told room.old) (derivation_file name.now)
        (R.faults room.old name.now) (R.faults room.new name.now) (R.taken room.old) (R.taken room.new)
        status (K.written out.old) (K.written out.new) (K.faults out.old) (K.faults out.new)) }
    ensures told { (n : List ℕ) → R.told room.new n ≡ R.told room.old n }
{
    match fetched(alloc, name, Kind::Derivation, room, out) {
        Ok(bytes) => read_derivation(alloc, bytes.as_slice(), out),
        Err(status) => Err(status),
    }
}

/// The schedule in the file of this name, or the status that the call ends with, where the refusal was put.
pub fn fetched_schedule<R: Room, K: Sink>(
    alloc: Global,
    name: &str,
    room: &mut R,
    out: &mut K,
) -> Result<Schedule, u8>
    ensures fetched { IfOk result (λ d. IsFetchedAs spec.schedule_in (R.told room.old) (R.taken room.old) (R.taken room.new) (schedule_file name.now) d) }
    ensures unwritten { OnOk result (out.new ≡ out.old) }
    ensures stops { IfErr result (λ status. Stops (R.told room.old) (schedule_file name.now)
        (R.faults room.old name.now) (R.faults room.new name.now) (R.taken room.old) (R.taken room.new)
        status (K.written out.old) (K.written out.new) (K.faults out.old) (K.faults out.new)) }
    ensures told { (n : List ℕ) → R.told room.new n ≡ R.told room.old n }
{
    match fetched(alloc, name, Kind::Schedule, room, out) {
        Ok(bytes) => read_schedule(alloc, bytes.as_slice(), out),
        Err(status) => Err(status),
    }
}

// The bytes of a file, or the status that the call ends with, where a line for a file that is too long was put.
fn fetched<R: Room, K: Sink>(
    alloc: Global,
    name: &str,
    kind: Kind,
    room: &mut R,
    out: &mut K,
) -> Result<Vec<u8>, u8>
    ensures fetched { IfOk result (λ bytes. Fetches (R.told room.old) (R.taken room.old) (R.taken room.new) (file_of name.now kind) (whole bytes.items)) }
    ensures unwritten { OnOk result (out.new ≡ out.old) }
    ensures stops { IfErr result (λ status. Stops (R.told room.old) (file_of name.now kind)
        (R.faults room.old name.now) (R.faults room.new name.now) (R.taken room.old) (R.taken room.new)
        status (K.written out.old) (K.written out.new) (K.faults out.old) (K.faults out.new)) }
    ensures told { (n : List ℕ) → R.told room.new n ≡ R.told room.old n }
    ensures faults { (n : List ℕ) → R.faults room.old n ≤ R.faults room.new n }
    ensures taken { R.taken room.old ≤ R.taken room.new }
{
    let mut bytes = Vec::new(alloc);
    match room.fetch(name, kind.limit(), &mut bytes) {
        Ok(()) => Ok(bytes),
        Err(RoomFault::Failed) => Err(NOT_FETCHED),
        Err(RoomFault::TooLong(_)) => Err(refuse_length(alloc, name, out)),
        Err(RoomFault::NoMemory) => Err(NO_MEMORY),
    }
}

// The outline that these bytes stand for, or the status that the call ends with, where the refusal was put.
fn read_outline<K: Sink>(alloc: Global, bytes: &[u8], out: &mut K) -> Result<Outline, u8>
    requires { length bytes.now ≤ longest Kind.Outline }
    ensures stands { IfOk result (λ o. StandsFor bytes.now o) }
    ensures unwritten { OnOk result (out.new ≡ out.old) }
    ensures refused { IfErr result (λ status. Puts (IsRefusal bytes.now)
        status (K.written out.old) (K.written out.new) (K.faults out.old) (K.faults out.new)) }
{
    match parse_outline(alloc, bytes) {
        Ok(outline) => Ok(outline),
        Err(fault) => Err(refuse_outline(alloc, &fault, out)),
    }
}

// The derivation that these bytes are, or the status that the call ends with, where the refusal was put.
fn read_derivation<K: Sink>(alloc: Global, bytes: &[u8], out: &mut K) -> Result<Derivation, u8>
    requires { length bytes.now ≤ longest Kind.Derivation }
    ensures read { IfOk result (λ d. spec.derivation_in bytes.now ≡ Ok d) }
    ensures unwritten { OnOk result (out.new ≡ out.old) }
    ensures refused { IfErr result (λ status. Puts (IsNoDocument spec.derivation_in bytes.now)
        status (K.written out.old) (K.written out.new) (K.faults out.old) (K.faults out.new)) }
{
    match parse_derivation(alloc, bytes) {
        Ok(derivation) => Ok(derivation),
        Err(fault) => Err(refuse_document(alloc, fault, out)),
    }
}

// The schedule that these bytes are, or the status that the call ends with, where the refusal was put.
fn read_schedule<K: Sink>(alloc: Global, bytes: &[u8], out: &mut K) -> Result<Schedule, u8>
    requires { length bytes.now ≤ longest Kind.Schedule }
    ensures read { IfOk result (λ d. spec.schedule_in bytes.now ≡ Ok d) }
    ensures unwritten { OnOk result (out.new ≡ out.old) }
    ensures refused { IfErr result (λ status. Puts (IsNoDocument spec.schedule_in bytes.now)
        status (K.written out.old) (K.written out.new) (K.faults out.old) (K.faults out.new)) }
{
    match parse_schedule(alloc, bytes) {
        Ok(schedule) => Ok(schedule),
        Err(fault) => Err(refuse_document(alloc, fault, out)),
    }
}
