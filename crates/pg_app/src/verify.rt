//! Checking a derivation against an outline, and putting the line of what is found. What is promised is that status and line are those of
//! the one answer that the derivation has.

ghost use Rattle.std.specs.Prelude.{◌≡◌, ◌≢◌, ℕ, List, Err, IfOk};
ghost use Rattle.pg_derive.specs.declared.fault.VerifyFault.TheVariants.{NoMemory};
ghost use Rattle.pg_report.specs.Verified.{verified_line};
ghost use Rattle.pg_app.specs.Answer as spec;
ghost use Rattle.pg_app.specs.Answer.{AsDerivation, IsChecked};
ghost use Rattle.pg_app.specs.File.{derivation_file};
ghost use Rattle.pg_app.specs.Put as put;
ghost use Rattle.pg_app.specs.Put.{Puts};
ghost use Rattle.pg_app.specs.Stops.{EndsOn};

use crate::fetch::fetched_derivation;
use crate::put::reported;
use crate::status::{NO_MEMORY, NOT_TAKEN, VERIFIED};
use pg_derivation::Derivation;
use pg_derive::{VerifyFault, verify};
use pg_io::{Room, Sink};
use pg_outline::Outline;
use pg_report::report_verified;
use std::alloc::Global;

/// Checks the derivation in the file of this name against an outline, or puts the refusal of the file.
pub fn verify_against<R: Room, K: Sink>(
    alloc: Global,
    outline: &Outline,
    name: &str,
    room: &mut R,
    out: &mut K,
) -> u8
    ensures ends { EndsOn (AsDerivation outline.now) (R.told room.old) (derivation_file name.now)
        (R.faults room.old name.now) (R.faults room.new name.now) (R.taken room.old) (R.taken room.new)
        result (K.written out.old) (K.written out.new) (K.faults out.old) (K.faults out.new) }
    ensures told { (n : List ℕ) → R.told room.new n ≡ R.told room.old n }
{
    match fetched_derivation(alloc, name, room, out) {
        Ok(derivation) => check_derivation(alloc, outline, &derivation, out),
        Err(status) => status,
    }
}

// Checks a derivation of an outline, and puts the line of what is found.
fn check_derivation<K: Sink>(
    alloc: Global,
    outline: &Outline,
    derivation: &Derivation,
    out: &mut K,
) -> u8
    ensures { Puts (IsChecked derivation.now outline.now)
        result (K.written out.old) (K.written out.new) (K.faults out.old) (K.faults out.new) }
{
    let answer = verify(alloc, outline, derivation);
    if ran_out(&answer) {
        return NO_MEMORY;
    }
    put_answer(alloc, &answer, out)
}

// Whether memory ran out before the derivation was checked.
fn ran_out(answer: &Result<u32, VerifyFault>) -> bool
    ensures { result ≡ put.ran_out answer.now }
{
    match answer {
        Ok(_) => false,
        Err(VerifyFault::Tree { .. } | VerifyFault::Missing(_) | VerifyFault::Extra(_)) => false,
        Err(VerifyFault::NoMemory) => true,
    }
}

// Puts the line of what a derivation is answered.
fn put_answer<K: Sink>(alloc: Global, answer: &Result<u32, VerifyFault>, out: &mut K) -> u8
    ensures { Puts (λ due text. (due ≡ spec.verified_status answer.now) × (text ≡ verified_line answer.now))
        result (K.written out.old) (K.written out.new) (K.faults out.old) (K.faults out.new) }
{
    let status = verified_status(answer);
    reported(report_verified(alloc, answer, out), status)
}

// The status of what a derivation is answered.
fn verified_status(answer: &Result<u32, VerifyFault>) -> u8
    ensures { result ≡ spec.verified_status answer.now }
{
    match answer {
        Ok(_) => VERIFIED,
        Err(_) => NOT_TAKEN,
    }
}
