//! What a node is: propagation first, and then one pass over the clauses.

ghost use Rattle.std.specs.Prelude.{◌≡◌, ℕ, Bool, List, ◌+◌, ◌-◌, ◌*◌, ◌^◌, ◌<◌, ◌≤◌, true, false, not, ◌&&◌, [], ◌∷◌, ◌++◌, length, take, vec_capacity, IfSome, MatchOption};
ghost use Rattle.pg_region.specs.Literal.{Literal, negated};
ghost use Rattle.pg_region.specs.Pieces.{total};
ghost use Rattle.pg_decider.specs.Assignment.{on, IsClosed};
ghost use Rattle.pg_decider.specs.Chains.{chain};
ghost use Rattle.pg_decider.specs.Search.{IfMet, IfOpen};
ghost use Rattle.pg_decider.specs.Tree.{IsNode};
ghost use Rattle.pg_decider.specs.Watch.{Placed, Watching, Watched, Shape, Grown, KeepsWatched};
ghost use Rattle.pg_decider.specs.declared.settle.Node.{Node};

use crate::split::split;
use crate::trail::Trail;
use crate::watches::Watches;
use pg_region::{ClauseReader, Lit};

/// How a node ends, once its literals are propagated.
#[derive(Clone, Copy, Drop)]
pub enum Node {
    /// A clause is all false.
    Shut,
    /// Each clause has a true literal.
    Met,
    /// It splits at this literal.
    Open(Lit),
}

/// Closes the node whose literals from `from` on are not propagated yet, and finds how it ends.
pub fn settle(
    watches: &mut Watches,
    reader: &mut ClauseReader,
    trail: &mut Trail,
    from: u32,
) -> Node
    requires shape { Shape reader.old.clauses watches.old.slots.items watches.old.chains trail.old }
    requires placed { Placed reader.old.clauses watches.old.slots.items watches.old.chains.lists 0 (length watches.old.slots.items) }
    requires empty { chain watches.old.chains.lists 0 ≡ [] }
    requires from { from ≤ length trail.old.literals }
    requires watching { Watching reader.old.clauses watches.old.slots.items [] (on (take from trail.old.literals)) (on trail.old.literals) (length watches.old.slots.items) }
    ensures reader { (reader.new.clauses ≡ reader.old.clauses) × (reader.new.atoms ≡ reader.old.atoms) }
    ensures looks { reader.new.looks ≤ reader.old.looks + (length reader.old.clauses + total reader.old.clauses) }
    ensures room { (vec_capacity watches.new.slots ≡ vec_capacity watches.old.slots) × (length watches.new.chains.lists ≡ length watches.old.chains.lists) × (watches.new.chains.slots ≡ watches.old.chains.slots) }
    ensures shape { Shape reader.old.clauses watches.new.slots.items watches.new.chains trail.new }
    ensures placed { Placed reader.old.clauses watches.new.slots.items watches.new.chains.lists 0 (length watches.new.slots.items) }
    ensures empty { chain watches.new.chains.lists 0 ≡ [] }
    ensures grown { Grown reader.old.clauses trail.old trail.new }
    ensures keeps { KeepsWatched reader.old.clauses watches.old.slots.items watches.new.slots.items (on trail.old.literals) }
    ensures node { (n : Node) → IsNode reader.old.clauses (on trail.old.literals) n → n ≡ result }
    ensures closed { IfMet result (IsClosed reader.old.clauses (on trail.new.literals)) }
    ensures watched { IfOpen result (λ l. Watched reader.old.clauses watches.new.slots.items (on trail.new.literals)) }
    ensures unset { IfOpen result (λ l. (l.atom ≤ trail.new.atoms) × (on trail.new.literals l ≡ false) × (on trail.new.literals (negated l) ≡ false)) }
{
    if !watches.propagate(reader, trail, from) {
        return Node::Shut;
    }
    match split(reader, trail) {
        Some(literal) => Node::Open(literal),
        None => Node::Met,
    }
}
