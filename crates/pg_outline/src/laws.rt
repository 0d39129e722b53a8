//! What holds of the erasure, by its definition. No function here does anything: its contract is the law.

ghost use Rattle.pg_outline.specs.ErasureLaws.{ErasureIsBare, BareStays, StatementsAreErased, StepsStay};

/// The erasure of a program is a program, without auxiliaries and brackets.
pub fn an_erasure_is_bare()
    ensures { ErasureIsBare }
{}

/// A program without auxiliaries and brackets is its own erasure.
pub fn a_bare_program_is_its_erasure()
    ensures { BareStays }
{}

/// At each point of the erasure stands the statement of that point, erased.
pub fn statements_are_erased()
    ensures { StatementsAreErased }
{}

/// The erasure has the steps of the program.
pub fn steps_stay()
    ensures { StepsStay }
{}
