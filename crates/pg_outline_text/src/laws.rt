//! What holds of every text, by the definitions that the reader answers by. No function here does anything: its contract is
//! the law.

ghost use Rattle.pg_outline_text.specs.Text.{HasOneReading, HasNoFault, FaultlessTextsAreReady};

/// A text stands for at most one outline.
pub fn a_text_stands_for_one_outline()
    ensures { HasOneReading }
{}

/// A text that stands for an outline has no fault.
pub fn what_stands_has_no_fault()
    ensures { HasNoFault }
{}

/// A text without a fault is one of the grammar, and an outline can be made of what is read.
pub fn a_text_without_a_fault_can_be_made()
    ensures { FaultlessTextsAreReady }
{}
