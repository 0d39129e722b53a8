//! What holds of predicates that steps keep, of outlines, and of erasure. No function here does anything: its contract is the law.

ghost use Rattle.pg_obligations.specs.Kept.{HoldAlong};
ghost use Rattle.pg_obligations.specs.Safe.{KeptIsSafe};
ghost use Rattle.pg_obligations.specs.Follow.{FollowIsSafe};
ghost use Rattle.pg_obligations.specs.Forgotten.{ExecutionsAreErased, ErasedExecutionsAreOf};

/// Predicates of states that an execution begins with and that each step keeps hold in every state of every execution.
pub fn kept_claims_hold_along()
    ensures { HoldAlong }
{}

/// An outline whose assertions and crash formula are kept is safe.
pub fn kept_assertions_are_safe()
    ensures { KeptIsSafe }
{}

/// Where every obligation follows, by rules that are true of each step that the machine takes, the outline is safe, and an execution
/// begins in the fresh state.
pub fn all_follow_is_safe()
    ensures { FollowIsSafe }
{}

/// With the precondition `true` the executions of the erasure of a program are exactly those of the program, with the auxiliaries
/// forgotten.
pub fn erasure_forgets_auxiliaries()
    ensures each { ExecutionsAreErased }
    ensures no_other { ErasedExecutionsAreOf }
{}
