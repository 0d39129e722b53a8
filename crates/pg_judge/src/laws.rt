//! What holds of outcomes, by their definition. No function here does anything: its contract is the law.

ghost use Rattle.pg_judge.specs.Laws.{OutcomeIsUnique, OutcomeIsTrue};

/// Under a budget an outline has at most one outcome.
pub fn an_outline_has_one_outcome()
    ensures { OutcomeIsUnique }
{}

/// What an outcome says of an outline is true: of one that is accepted that each obligation follows and that it is safe, and of one that
/// is rejected that its truths make each clause of the obligation true.
pub fn outcomes_are_true()
    ensures { OutcomeIsTrue }
{}
