//! What is answered for a set of clauses.

/// The outcome of the plain tree, with the number of nodes that were visited.
#[derive(Clone, Copy, Debug, PartialEq, Eq, Drop)]
pub enum Verdict {
    /// No node is a model: no assignment satisfies the clauses.
    Closed(u32),
    /// The last visited node is a model.
    Model(u32),
    /// More nodes are visited than the budget allows.
    Spent,
}
