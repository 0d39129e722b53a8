//! The search from node to node, depth first, without recursion.

ghost use Rattle.std.specs.Prelude.{◌≡◌, ℕ, Bool, List, ◌+◌, ◌-◌, ◌*◌, ◌^◌, ◌<◌, ◌≤◌, true, false, [], ◌∷◌, ◌++◌, length, take, vec_capacity, MatchOption};
ghost use Rattle.pg_region.specs.Literal.{Literal, negated};
ghost use Rattle.pg_region.specs.Pieces.{total};
ghost use Rattle.pg_decider.specs.Assignment.{on};
ghost use Rattle.pg_decider.specs.Outcome.{Answers, nodes_of};
ghost use Rattle.pg_decider.specs.Search.{Searching, IsOpen, branch, back_to};
ghost use Rattle.pg_decider.specs.Trail.{added_to};
ghost use Rattle.pg_decider.specs.Tree.{Tree, IsTree};
ghost use Rattle.pg_decider.specs.declared.search.Branch.{Branch};

use crate::log::{TreeLog, TreeNode};
use crate::settle::{Node, settle};
use crate::trail::Trail;
use crate::verdict::Verdict;
use crate::watches::Watches;
use pg_region::{ClauseReader, Lit};

/// A child that is still to be visited: where the trail goes back to, and the literal that is added there.
#[derive(Clone, Copy, Drop)]
pub struct Branch {
    pub mark: u32,
    pub literal: Lit,
}

/// Goes from node to node, until a model, a closed tree or the end of the budget.
pub fn search(
    watches: &mut Watches,
    reader: &mut ClauseReader,
    trail: &mut Trail,
    branches: &mut Vec<Branch>,
    log: &mut TreeLog,
    budget: u32,
) -> Verdict
    requires searching { Searching reader.old.clauses watches.old.slots.items watches.old.chains trail.old branches.old.items 0 }
    requires start { branches.old.items ≡ [] }
    requires log { log.old.lines ≡ [] }
    requires room { trail.old.atoms + 1 ≤ vec_capacity branches.old }
    requires log_room { budget ≤ log.old.room }
    ensures reader { (reader.new.clauses ≡ reader.old.clauses) × (reader.new.atoms ≡ reader.old.atoms) }
    ensures looks { reader.new.looks ≤ reader.old.looks + nodes_of result budget * (length reader.old.clauses + total reader.old.clauses) }
    ensures room { (vec_capacity watches.new.slots ≡ vec_capacity watches.old.slots) × (length watches.new.chains.lists ≡ length watches.old.chains.lists) × (watches.new.chains.slots ≡ watches.old.chains.slots) }
    ensures branch_room { (vec_capacity branches.new ≡ vec_capacity branches.old) × (log.new.room ≡ log.old.room) × (trail.new.atoms ≡ trail.old.atoms) }
    ensures within { nodes_of result budget ≤ budget }
    ensures says { (w : Tree) → IsTree reader.old.clauses (on trail.old.literals) w → Answers result budget log.new.lines (on trail.new.literals) w }
{
    let mut left = budget;
    let mut from: u32 = 0;
    'nodes: while left > 0 {
        left -= 1;
        match settle(watches, reader, trail, from) {
            Node::Met => return Verdict::Model(budget - left),
            Node::Open(literal) => {
                log.push(TreeNode::Split(literal));
                from = go_down(trail, branches, literal);
            }
            Node::Shut => {
                log.push(TreeNode::Leaf);
                match go_back(trail, branches) {
                    None => return Verdict::Closed(budget - left),
                    Some(mark) => from = mark,
                }
            }
        }
    }
    Verdict::Spent
}

/// Adds a literal, and leaves its negation for later.
pub fn go_down(trail: &mut Trail, branches: &mut Vec<Branch>, literal: Lit) -> u32
    requires unset { (literal.atom ≤ trail.old.atoms) × (on trail.old.literals literal ≡ false) × (on trail.old.literals (negated literal) ≡ false) }
    requires few { length branches.old.items ≤ length trail.old.literals }
    requires room { trail.old.atoms + 1 ≤ vec_capacity branches.old }
    ensures from { result ≡ length trail.old.literals }
    ensures trail { trail.new ≡ added_to trail.old literal 0 }
    ensures branches { branches.new.items ≡ branches.old.items ++ record { mark = length trail.old.literals; literal = negated literal } ∷ [] }
    ensures room { vec_capacity branches.new ≡ vec_capacity branches.old }
{
    let mark = trail.len();
    trail.add(literal, 0);
    let _len = trail.len();
    branches.push_reserved(Branch {
        mark,
        literal: literal.negated(),
    });
    mark
}

/// Goes back to the last branch, and adds its literal.
pub fn go_back(trail: &mut Trail, branches: &mut Vec<Branch>) -> Option<u32>
    requires { (i : ℕ) → i + 1 ≡ length branches.old.items → ((branch branches.old.items i).mark < length trail.old.literals) × IsOpen trail.old (take (branch branches.old.items i).mark trail.old.literals) (branch branches.old.items i).literal }
    ensures moved { MatchOption result (branches.old.items ≡ []) (λ m. (b : Branch) × (branches.old.items ≡ branches.new.items ++ b ∷ []) × (m ≡ b.mark) × (trail.new ≡ back_to trail.old b.mark b.literal)) }
    ensures atoms { trail.new.atoms ≡ trail.old.atoms }
    ensures room { vec_capacity branches.new ≡ vec_capacity branches.old }
{
    match branches.pop() {
        None => None,
        Some(branch) => {
            trail.undo(branch.mark);
            trail.add(branch.literal, 0);
            Some(branch.mark)
        }
    }
}
