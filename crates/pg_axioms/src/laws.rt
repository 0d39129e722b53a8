//! What holds of the axioms. No function here does anything: its contract is the law.

ghost use Rattle.pg_axioms.specs.Truth.{AxiomsAreTrue};
ghost use Rattle.pg_axioms.specs.Bound.{HasAtMost, LargestHas, SmallestHas, most_axioms_1, most_axiom_literals_1, most_axioms_2, most_axiom_literals_2};

/// Each axiom is true in every well-formed state of a program, on either side of a step.
pub fn axioms_are_true()
    ensures { AxiomsAreTrue }
{}

/// How many clauses a side has, and how many literals in all of them together: at most so many in version 1, where there are
/// at most 4 values, 16 scalars, 6 locations and 4 threads, and so many in version 2, where there are at most 6 values and 8
/// locations; and a side of the largest layout has as many. With one thread, one location, two values and no scalar it has
/// 38 clauses.
pub fn axioms_are_counted()
    ensures most_1 { HasAtMost 1 most_axioms_1 most_axiom_literals_1 }
    ensures most_2 { HasAtMost 2 most_axioms_2 most_axiom_literals_2 }
    ensures largest_1 { LargestHas 1 most_axioms_1 most_axiom_literals_1 }
    ensures largest_2 { LargestHas 2 most_axioms_2 most_axiom_literals_2 }
    ensures smallest { SmallestHas 38 }
{}
