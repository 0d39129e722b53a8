//! What holds of the machine, by its definitions. No function here does anything: its contract is the law.

ghost use Rattle.pg_machine.specs.State.{FreshIsWellFormed};
ghost use Rattle.pg_machine.specs.Step.{HasOneStep, StepKeepsWellFormed};
ghost use Rattle.pg_machine.specs.Moves.{SwapIsStoreThenFence};
ghost use Rattle.pg_machine.specs.Fault.{HasOneFault, FaultHasNoStep};

/// For a program, a state and an event there is at most one next state.
pub fn an_event_has_one_next_state()
    ensures { HasOneStep }
{}

/// The fresh state of a well-formed program is well formed.
pub fn the_fresh_state_is_well_formed()
    ensures { FreshIsWellFormed }
{}

/// A step of a well-formed program keeps a state well formed.
pub fn a_step_keeps_a_state_well_formed()
    ensures { StepKeepsWellFormed }
{}

/// What a successful cas leaves in the messages and views is what a store of its desired value and then an `mfence` leave.
pub fn a_successful_cas_is_a_store_and_a_fence()
    ensures { SwapIsStoreThenFence }
{}

/// An event has one fault at most.
pub fn an_event_has_one_fault()
    ensures { HasOneFault }
{}

/// An event with a fault leads to no state within the limit of messages.
pub fn a_fault_has_no_step()
    ensures { FaultHasNoStep }
{}
