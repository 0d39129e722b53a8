//! What holds of the rules. No function here does anything: its contract is the law.

ghost use Rattle.pg_soundness.specs.Soundness.{AccessRulesAreTrue};

/// Each access rule of a step of a program is true of each step of the machine through it, from every well-formed state. The program
/// declares no more scalars than the limit of names, as each `Program` does.
pub fn access_rules_are_true()
    ensures { AccessRulesAreTrue }
{}
