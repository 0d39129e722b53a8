//! What holds of the plain tree, by its definition. No function here does anything: its contract is the law.

ghost use Rattle.pg_decider.specs.Laws.{TreeIsUnique, SmallTreeExists, NoModelIsUnsatisfiable, AnyOrderCloses, AnyOrderConflicts};

/// Below a path clauses have at most one tree.
pub fn a_tree_is_unique()
    ensures { TreeIsUnique }
{}

/// Clauses over n atoms have a tree, with fewer than 2^(n + 1) nodes.
pub fn a_small_tree_exists()
    ensures { SmallTreeExists }
{}

/// Where the tree has no model, no assignment satisfies the clauses.
pub fn no_model_means_unsatisfiable()
    ensures { NoModelIsUnsatisfiable }
{}

/// In whatever order forced literals are added one after the other, the closure is the same, and so is whether it has a conflict.
pub fn any_order_of_forced_literals_serves()
    ensures closes { AnyOrderCloses }
    ensures conflicts { AnyOrderConflicts }
{}
