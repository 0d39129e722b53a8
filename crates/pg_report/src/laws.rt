//! What the printed obligations say.

ghost use Rattle.pg_report.specs.Judged.{OutcomesAreTold};
ghost use Rattle.pg_report.specs.Meaning.{WhatIsPrintedIsMeant};

/// The givens and the goal that are printed of an obligation are those that its clauses are about.
pub fn what_is_printed_is_meant()
    ensures { WhatIsPrintedIsMeant }
{}

/// An outcome of an outline names one of its obligations, and has the truths of all atoms of a step.
pub fn outcomes_are_told()
    ensures { OutcomesAreTold }
{}
