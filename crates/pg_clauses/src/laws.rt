//! What definitional clauses say. No function here does anything: its contract is the law.

ghost use Rattle.pg_clauses.specs.Truth.{DefinitionsTellTheTruth, DefinitionsCanBeMet};

/// Where the definitional clauses of a formula are true, its literal is true just where the formula is.
pub fn definitions_tell_the_truth()
    ensures { DefinitionsTellTheTruth }
{}

/// Every valuation of the atoms below the new ones extends to the new ones so that the definitional clauses are true.
pub fn definitions_can_be_met()
    ensures { DefinitionsCanBeMet }
{}
