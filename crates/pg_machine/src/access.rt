//! What the accesses to a location do to the memory and to the views of the thread, and why they may be refused.

ghost use Rattle.std.specs.Prelude.{◌≡◌, ◌≢◌, ◌+◌, ◌<◌, ◌≤◌, ◌⊎◌, true, length, MatchOption, IfOk, IfErr, OnOk, OnErr};
ghost use Rattle.pg_machine.specs.Memory.{reaches, value_at, last_value};
ghost use Rattle.pg_machine.specs.State.{coh_of, maxcoh};
ghost use Rattle.pg_machine.specs.Moves.{can_read, loaded, stored, swapped, missed, fenced};
ghost use Rattle.pg_machine.specs.Fault.{ChoiceFault, IsFull};
ghost use Rattle.pg_machine.specs.Refusal.{IsRefusal};
ghost use Rattle.pg_machine.specs.StepParts.{seen_in};
ghost use Rattle.pg_machine.specs.Limits.{most_messages};

use crate::fault::StepFault;
use crate::memory::Memory;
use crate::views::Views;

/// Why a thread may not read a location at a position, where a message up to `bound` hides it.
pub fn choice_fault(
    memory: &Memory,
    views: &Views,
    location: u8,
    position: u32,
    bound: u32,
) -> Option<StepFault>
    requires { location < length views.now.coh }
    ensures { MatchOption result (reaches memory.now.memory.messages location (coh_of views.now location) bound position ≡ true) (λ f. ChoiceFault (seen_in memory.now views.now) location position bound f) }
{
    if !memory.is_at(location, position) {
        return Some(StepFault::NotAPosition(position));
    }
    let coh = views.coh(location);
    if position < coh {
        return Some(StepFault::BelowCoherence { position, coh });
    }
    match memory.hiding(location, position, bound) {
        Some(later) => Some(StepFault::Hidden { position, later }),
        None => None,
    }
}

/// A load of a location at a position, which gives the value there.
pub fn load(
    memory: &Memory,
    views: &mut Views,
    location: u8,
    position: u32,
) -> Result<u8, StepFault>
    requires coh { location < length views.old.coh }
    requires location { location < length memory.now.memory.initial }
    ensures ok { IfOk result (λ v. (can_read (seen_in memory.now views.old) location position ≡ true) × (seen_in memory.now views.new ≡ loaded (seen_in memory.now views.old) location position) × (v ≡ value_at memory.now.memory location position)) }
    ensures err { IfErr result (λ f. ChoiceFault (seen_in memory.now views.old) location position views.old.vrn f) }
    ensures unchanged { OnErr result (views.new ≡ views.old) }
{
    let bound = views.vrn();
    match choice_fault(memory, views, location, position, bound) {
        Some(fault) => Err(fault),
        None => {
            views.load(location, position);
            Ok(memory.value_at(location, position))
        }
    }
}

/// A failing cas of a location, which reads a value other than the expected one at a position, and gives it.
pub fn miss(
    memory: &Memory,
    views: &mut Views,
    location: u8,
    position: u32,
    expected: u8,
) -> Result<u8, StepFault>
    requires coh { location < length views.old.coh }
    requires sizes { length views.old.vpc ≡ length views.old.vpa }
    requires location { location < length memory.now.memory.initial }
    ensures ok { IfOk result (λ v. (can_read (fenced (seen_in memory.now views.old)) location position ≡ true) × (value_at memory.now.memory location position ≢ expected) × (seen_in memory.now views.new ≡ missed (seen_in memory.now views.old) location position) × (v ≡ value_at memory.now.memory location position)) }
    ensures err { IfErr result (λ f. ChoiceFault (seen_in memory.now views.old) location position (maxcoh views.old) f ⊎ ((can_read (fenced (seen_in memory.now views.old)) location position ≡ true) × (value_at memory.now.memory location position ≡ expected) × (f ≡ StepFault.CasMustDiffer (value_at memory.now.memory location position)))) }
    ensures unchanged { OnErr result (views.new ≡ views.old) }
{
    let bound = views.maxcoh();
    if let Some(fault) = choice_fault(memory, views, location, position, bound) {
        return Err(fault);
    }
    let value = memory.value_at(location, position);
    if value == expected {
        return Err(StepFault::CasMustDiffer(value));
    }
    views.miss(location, position);
    Ok(value)
}

/// A store of a value to a location.
pub fn store(
    memory: &mut Memory,
    views: &mut Views,
    location: u8,
    value: u8,
) -> Result<(), StepFault>
    requires { location < length views.old.coh }
    ensures ok { OnOk result (seen_in memory.new views.new ≡ stored (seen_in memory.old views.old) location value) }
    ensures err { IfErr result (λ f. IsRefusal (λ g. IsFull memory.old.memory × (g ≡ StepFault.MessagesFull)) memory.old.spare f) }
    ensures within { OnOk result (length memory.new.memory.messages ≤ most_messages) }
    ensures unchanged { OnErr result (seen_in memory.new views.new ≡ seen_in memory.old views.old) }
    ensures spare { memory.old.spare + length memory.old.memory.messages ≤ memory.new.spare + length memory.new.memory.messages }
{
    let position = memory.append(location, value)?;
    views.store(location, position);
    Ok(())
}

/// A successful cas of a location, whose last value is the expected one.
pub fn swap(
    memory: &mut Memory,
    views: &mut Views,
    location: u8,
    expected: u8,
    desired: u8,
) -> Result<(), StepFault>
    requires coh { location < length views.old.coh }
    requires sizes { length views.old.vpc ≡ length views.old.vpa }
    requires location { location < length memory.old.memory.initial }
    ensures ok { OnOk result ((last_value memory.old.memory location ≡ expected) × (seen_in memory.new views.new ≡ swapped (seen_in memory.old views.old) location desired)) }
    ensures err { IfErr result (λ f. IsRefusal (λ g. ((last_value memory.old.memory location ≢ expected) × (g ≡ StepFault.CasNotLast (last_value memory.old.memory location))) ⊎ ((last_value memory.old.memory location ≡ expected) × IsFull memory.old.memory × (g ≡ StepFault.MessagesFull))) memory.old.spare f) }
    ensures within { OnOk result (length memory.new.memory.messages ≤ most_messages) }
    ensures unchanged { OnErr result (seen_in memory.new views.new ≡ seen_in memory.old views.old) }
    ensures spare { memory.old.spare + length memory.old.memory.messages ≤ memory.new.spare + length memory.new.memory.messages }
{
    let last = memory.last_value(location);
    if last != expected {
        return Err(StepFault::CasNotLast(last));
    }
    let position = memory.append(location, desired)?;
    views.swap(location, position);
    Ok(())
}
