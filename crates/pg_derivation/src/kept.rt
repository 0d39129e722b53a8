//! What a derivation keeps of a node.

use pg_region::Lit;

/// A node as it is kept: a leaf has its numbers among those of all leaves, from one place up to another.
#[derive(Clone, Copy, Drop)]
pub enum Kept {
    Split(Lit),
    Leaf { from: u32, to: u32 },
}
