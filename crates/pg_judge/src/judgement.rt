//! What judging an outline answers.

/// How an outline is judged under a budget of nodes.
#[derive(Debug, Drop)]
pub enum Judgement {
    /// Each of its obligations is closed. There are this many, and their trees have so many nodes together.
    Accepted { count: u32, nodes: u64 },
    /// Those before obligation i are closed, and its tree has a model within the budget: the truth of each atom, by its number. There is
    /// none with the number 0, whose truth is false.
    Rejected { i: u32, truths: Vec<bool> },
    /// Those before obligation i are closed, and in its tree more nodes are visited than the budget allows.
    Spent { i: u32 },
}
