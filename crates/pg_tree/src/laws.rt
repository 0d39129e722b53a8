//! What holds of valid trees, by their definition. No function here does anything: its contract is the law.

ghost use Rattle.pg_tree.specs.Laws.{NoFaultIsValid, ValidIsUnsatisfiable, WrittenIsValid};

/// Lines have no fault exactly where they are those of a valid tree.
pub fn no_fault_means_valid()
    ensures { NoFaultIsValid }
{}

/// Where clauses have a valid tree, no assignment satisfies them.
pub fn valid_means_unsatisfiable()
    ensures { ValidIsUnsatisfiable }
{}

/// The log of a closed tree, with clauses that close each leaf, is a valid tree.
pub fn what_is_written_is_valid()
    ensures { WrittenIsValid }
{}
