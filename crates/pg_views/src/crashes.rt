//! Crashes: what a crash leaves of the memory.

ghost use Rattle.std.specs.Prelude.{◌≡◌, ℕ, ◌<◌, ◌≤◌, ◌^◌, ◌⊎◌, true, length, slice_index, MatchOption, IfOk, IfErr};
ghost use Rattle.pg_program.specs.NameTable.{line_count};
ghost use Rattle.pg_machine.specs.State.{IsWellFormed};
ghost use Rattle.pg_views.specs.Crash.{cut, survives, IsCrashChoice, crash_memory};
ghost use Rattle.pg_views.specs.Fault.{PositionFault, IsCrashFault};

use crate::atom::committed;
use crate::fault::CrashFault;
use pg_machine::State;
use pg_program::Program;
use std::alloc::{AllocError, Global};
use std::marker::Model;

/// A memory that a crash leaves: one value of each location.
#[derive(Drop)]
pub struct Nvm {
    values: Vec<u8>,
}

impl Model for Nvm {
    ghost use Rattle.std.specs.Prelude.{ℕ, List};

    ghost Value = { List ℕ };

    ghost view = { λ n. n.values.items };
}

impl Nvm {
    /// The value of a location.
    pub fn value(&self, x: u8) -> u8
        requires { x < length self.now }
        ensures { result ≡ slice_index self.now x }
    {
        self.values[usize::from(x)]
    }
}

/// The memory that a crash leaves which takes each location at one of its positions, in the order of the locations. The lines are
/// cut by all of the positions. The first position that such a crash can't take is refused.
pub fn crash(alloc: Global, s: &State, p: &Program, at: &[u32]) -> Result<Nvm, CrashFault>
    requires formed { IsWellFormed p.now s.now.state }
    requires few { length at.now < 2 ^ 32 }
    ensures ok { IfOk result (λ n. IsCrashChoice s.now.state at.now × (n ≡ crash_memory s.now.state at.now)) }
    ensures size { IfOk result (λ n. length n ≡ length s.now.state.memory.initial) }
    ensures err { IfErr result (λ f. IsCrashFault s.now.state at.now f ⊎ ((f ≡ CrashFault.NoMemory) × IsCrashChoice s.now.state at.now)) }
    ensures exact { (f : CrashFault) → IsCrashFault s.now.state at.now f → result ≡ Err f }
    ensures complete { IsCrashChoice s.now.state at.now → IfErr result (λ f. f ≡ CrashFault.NoMemory) }
{
    if let Some(fault) = first_fault(s, p, at) {
        return Err(fault);
    }
    match memory_at(alloc, s, p, at) {
        Ok(memory) => Ok(memory),
        Err(_) => Err(CrashFault::NoMemory),
    }
}

/// Why the positions are no crash choice of the state.
fn first_fault(s: &State, p: &Program, at: &[u32]) -> Option<CrashFault>
    requires formed { IsWellFormed p.now s.now.state }
    requires few { length at.now < 2 ^ 32 }
    ensures { MatchOption result (IsCrashChoice s.now.state at.now) (λ f. IsCrashFault s.now.state at.now f) }
{
    let locations = p.names().locations();
    if at.len() != usize::from(locations) {
        return Some(CrashFault::WrongLength {
            given: at.len() as u32,
            wanted: u32::from(locations),
        });
    }
    for x in 0..locations {
        if let Some(fault) = position_fault(s, p, at, x) {
            return Some(fault);
        }
    }
    None
}

/// Why a crash that leaves the locations at these positions can't leave one of them so.
fn position_fault(s: &State, p: &Program, at: &[u32], x: u8) -> Option<CrashFault>
    requires formed { IsWellFormed p.now s.now.state }
    requires each { length at.now ≡ length s.now.state.memory.initial }
    requires location { x < length s.now.state.memory.initial }
    ensures { MatchOption result (survives s.now.state at.now x ≡ true) (λ f. PositionFault s.now.state at.now x f) }
{
    let position = at[usize::from(x)];
    if !s.memory().is_at(x, position) {
        return Some(CrashFault::NotAPosition { x, position });
    }
    let bound = cut(s, p, at, s.line(x));
    match s.memory().hiding(x, position, bound) {
        Some(later) => Some(CrashFault::Overwritten { x, position, later }),
        None => None,
    }
}

/// Where a crash that leaves the locations at these positions cuts a line: at the greatest of them that stand on it, and at no
/// less than what was committed to it.
fn cut(s: &State, p: &Program, at: &[u32], line: u8) -> u32
    requires formed { IsWellFormed p.now s.now.state }
    requires each { length at.now ≡ length s.now.state.memory.initial }
    requires line { line < line_count s.now.state.memory.lines }
    ensures { result ≡ cut s.now.state at.now line }
{
    let mut most = committed(s, p, line);
    for x in 0..p.names().locations() {
        if s.line(x) == line {
            most = most.max(at[usize::from(x)]);
        }
    }
    most
}

/// The memory that a crash choice leaves.
fn memory_at(alloc: Global, s: &State, p: &Program, at: &[u32]) -> Result<Nvm, AllocError>
    requires formed { IsWellFormed p.now s.now.state }
    requires choice { IsCrashChoice s.now.state at.now }
    ensures { IfOk result (λ n. n ≡ crash_memory s.now.state at.now) }
{
    let mut values = Vec::new(alloc);
    for x in 0..p.names().locations() {
        values.push(s.memory().value_at(x, at[usize::from(x)]))?;
    }
    Ok(Nvm { values })
}
