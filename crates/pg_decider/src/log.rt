//! The nodes of a tree, in the order in which they are visited.

ghost use Rattle.std.specs.Prelude.{◌≡◌, ◌+◌, ◌-◌, ◌<◌, ◌≤◌, [], ◌∷◌, ◌++◌, length, slice_index_or, IfOk};
ghost use Rattle.pg_decider.specs.Held.{LogTable};
ghost use Rattle.pg_decider.specs.declared.log.TreeNode.TheVariants.{Leaf};

use pg_region::Lit;
use std::alloc::{AllocError, Global};
use std::marker::Model;

/// A node of a tree: it splits at a literal, or it is a leaf.
#[derive(Clone, Copy, Debug, Drop)]
pub enum TreeNode {
    Split(Lit),
    Leaf,
}

/// The nodes of a tree in preorder, numbered from 1.
#[derive(Drop)]
pub struct TreeLog {
    nodes: Vec<TreeNode>,
}

impl Model for TreeLog {
    ghost use Rattle.std.specs.Prelude.{◌≤◌, ◌<◌, ◌^◌, length, vec_capacity};
    ghost use Rattle.pg_decider.specs.Held.{LogTable};

    ghost Value = { LogTable };

    ghost view = { λ l. record { lines = l.nodes.items; room = vec_capacity l.nodes } };

    ghost invariant = { λ l. vec_capacity l.nodes < 2 ^ 32 };
}

impl TreeLog {
    /// An empty log with room for so many nodes.
    pub fn make(alloc: Global, nodes: u32) -> Result<TreeLog, AllocError>
        ensures { IfOk result (λ l. l ≡ record { lines = []; room = nodes }) }
    {
        let nodes = Vec::with_capacity(alloc, nodes as usize)?;
        Ok(TreeLog { nodes })
    }

    /// How many nodes there are.
    pub fn len(&self) -> u32
        ensures { result ≡ length self.now.lines }
    {
        self.nodes.len() as u32
    }

    /// The node with a number, from 1 on.
    pub fn node(&self, i: u32) -> TreeNode
        requires { (1 ≤ i) × (i ≤ length self.now.lines) }
        ensures { result ≡ slice_index_or self.now.lines (i - 1) Leaf }
    {
        self.nodes[(i - 1) as usize]
    }

    /// Forgets all nodes.
    pub(crate) fn clear(&mut self)
        ensures { self.new ≡ record { lines = []; room = self.old.room } }
    {
        self.nodes.truncate(0);
    }

    /// Appends a node.
    pub(crate) fn push(&mut self, node: TreeNode)
        requires { length self.old.lines < self.old.room }
        ensures { self.new ≡ record { lines = self.old.lines ++ node ∷ []; room = self.old.room } }
    {
        self.nodes.push_reserved(node);
    }
}
