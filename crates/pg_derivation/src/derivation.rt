//! Derivations, and the trees that they lend.

ghost use Rattle.std.specs.Prelude.{◌≡◌, ◌-◌, ◌<◌, ◌≤◌, ◌∷◌, slice_index, slice_index_or, slice_range, length};
ghost use Rattle.pg_derivation.specs.Derivation.{DerivationTable, TreeTable, IsDerivation, IsTree, IsNode, tree_at, line_at};
ghost use Rattle.pg_derivation.specs.Kept.{node_in, IsWithin};
ghost use Rattle.pg_derivation.specs.Lent.{node_of};
ghost use Rattle.pg_region.specs.Pieces.{AreEnds};

use crate::kept::Kept;
use pg_region::Lit;
use std::marker::Model;

/// What a line of a tree says: it splits at a literal, or it is a leaf with the numbers of its clauses.
#[derive(Clone, Copy, Debug, Drop)]
pub enum DocNode<'a> {
    Split(Lit),
    Leaf(&'a [u32]),
}

/// Trees, for each obligation one, with the numbers of the lines that they stand on. Contracts see a list of trees.
#[derive(Drop)]
pub struct Derivation {
    numbers: Vec<u32>,
    nodes: Vec<Kept>,
    ends: Vec<u32>,
}

impl Model for Derivation {
    ghost use Rattle.std.specs.Prelude.{◌<◌, ◌^◌, vec_len};
    ghost use Rattle.pg_derivation.specs.Derivation.{DerivationTable, coded_derivation};
    ghost use Rattle.pg_derivation.specs.Kept.{derivation_in, IsInDerivation};

    ghost Value = { DerivationTable };

    ghost coded = { coded_derivation };

    ghost view = { λ d. derivation_in d.numbers.items d.nodes.items d.ends.items };

    ghost invariant = { λ d. IsInDerivation d.numbers.items d.nodes.items d.ends.items };
}

impl Derivation {
    ghost use Rattle.pg_derivation.specs.Kept.{derivation_in, IsInDerivation};

    /// Of what is kept.
    pub(crate) fn of(numbers: Vec<u32>, nodes: Vec<Kept>, ends: Vec<u32>) -> Derivation
        requires { IsInDerivation numbers.items nodes.items ends.items }
        ensures { result ≡ derivation_in numbers.items nodes.items ends.items }
    {
        Derivation {
            numbers,
            nodes,
            ends,
        }
    }

    /// How many trees there are.
    pub fn trees(&self) -> u32
        ensures count { result ≡ length self.now }
        ensures derivation { IsDerivation self.now }
    {
        self.ends.len() as u32
    }

    /// The tree with a number, from 1 on.
    pub fn tree(&self, i: u32) -> TreeView<'_>
        requires { (1 ≤ i) × (i ≤ length self.now) }
        ensures { result ≡ tree_at self.now i }
    {
        let place = (i - 1) as usize;
        let from = end_of(&self.ends, place);
        TreeView {
            numbers: &self.numbers,
            nodes: piece(&self.nodes, &self.ends, place),
            first: i + from as u32 + 2,
        }
    }
}

/// A tree of a derivation. Contracts see the list of its lines.
#[derive(Drop)]
pub struct TreeView<'a> {
    numbers: &'a [u32],
    nodes: &'a [Kept],
    first: u32,
}

impl<'a> Model for TreeView<'a> {
    ghost use Rattle.std.specs.Prelude.{◌<◌, ◌^◌, length};
    ghost use Rattle.pg_derivation.specs.Derivation.{TreeTable, coded_tree};
    ghost use Rattle.pg_derivation.specs.Kept.{tree_in, IsInTree};

    ghost Value = { TreeTable };

    ghost coded = { coded_tree };

    ghost view = { λ t. tree_in t.numbers.now t.nodes.now t.first };

    ghost invariant = { λ t. IsInTree t.numbers.now t.nodes.now t.first };
}

impl<'a> TreeView<'a> {
    /// How many lines there are: one at least.
    pub fn len(&self) -> u32
        ensures count { result ≡ length self.now }
        ensures tree { IsTree self.now }
    {
        self.nodes.len() as u32
    }

    /// The number in the file of the line with a number among the tree's, from 1 on.
    pub fn line(&self, k: u32) -> u32
        requires { (1 ≤ k) × (k ≤ length self.now) }
        ensures { result ≡ (line_at self.now k).number }
    {
        self.first + (k - 1)
    }

    /// What the line with a number among the tree's says, from 1 on.
    pub fn node(&self, k: u32) -> DocNode<'a>
        requires { (1 ≤ k) × (k ≤ length self.now) }
        ensures said { node_of result ≡ (line_at self.now k).node }
        ensures fits { IsNode (node_of result) }
    {
        let node = &self.nodes[(k - 1) as usize];
        lent(self.numbers, node)
    }
}

/// A node, whose numbers stand among these.
fn lent<'a>(numbers: &'a [u32], node: &Kept) -> DocNode<'a>
    requires { IsWithin numbers.now node.now }
    ensures { node_of result ≡ node_in numbers.now node.now }
{
    match node {
        Kept::Split(literal) => DocNode::Split(*literal),
        Kept::Leaf { from, to } => DocNode::Leaf(&numbers[*from as usize..*to as usize]),
    }
}

/// The nodes of the tree with this place.
fn piece<'a>(nodes: &'a [Kept], ends: &[u32], place: usize) -> &'a [Kept]
    requires ends { AreEnds 0 ends.now (length nodes.now) }
    requires place { place < length ends.now }
    ensures { result.now ≡ slice_range nodes.now (slice_index_or (0 ∷ ends.now) place 0) (slice_index ends.now place) }
{
    let from = end_of(ends, place);
    let to = ends[place] as usize;
    &nodes[from..to]
}

/// Where the first `count` trees end.
fn end_of(ends: &[u32], count: usize) -> usize
    requires { count ≤ length ends.now }
    ensures { result ≡ slice_index_or (0 ∷ ends.now) count 0 }
{
    if count == 0 {
        0
    } else {
        ends[count - 1] as usize
    }
}
