//! The persistency rules are sound.

ghost use Rattle.pg_soundness.specs.Soundness.{PersistRulesAreTrue};

/// Each clause of the persistency rules of a step is true of each step of the machine through it, from every well-formed state.
pub fn persist_rules_are_true()
    ensures { PersistRulesAreTrue }
{}
