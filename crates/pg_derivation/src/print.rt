//! The text of a derivation.

ghost use Rattle.std.specs.Prelude.{◌≡◌, [], ◌++◌, IfOk, OnOk};
ghost use Rattle.pg_derivation.specs.Derivation.{trees_of, nodes_of};
ghost use Rattle.pg_derivation.specs.Lent.{node_of};
ghost use Rattle.pg_derivation.specs.Text.{text_of, nodes_text, node_text};

use crate::derivation::{Derivation, DocNode, TreeView};
use crate::lines::{append_end, append_header, append_leaf, append_obligation, append_split};
use std::alloc::{AllocError, Global};

/// The one spelling of a derivation.
pub fn print_derivation(alloc: Global, d: &Derivation) -> Result<Vec<u8>, AllocError>
    ensures { IfOk result (λ text. text.items ≡ text_of (trees_of d.now)) }
{
    let mut text = Vec::new(alloc);
    append_text(&mut text, d)?;
    Ok(text)
}

/// Writes the spelling of a derivation.
fn append_text(text: &mut Vec<u8>, d: &Derivation) -> Result<(), AllocError>
    requires { text.old.items ≡ [] }
    ensures { OnOk result (text.new.items ≡ text_of (trees_of d.now)) }
{
    append_header(text)?;
    let trees = d.trees();
    for i in 0..trees {
        append_obligation(text, i + 1)?;
        append_tree(text, &d.tree(i + 1))?;
    }
    append_end(text)?;
    Ok(())
}

/// Appends the lines of a tree.
fn append_tree(text: &mut Vec<u8>, tree: &TreeView<'_>) -> Result<(), AllocError>
    ensures { OnOk result (text.new.items ≡ text.old.items ++ nodes_text (nodes_of tree.now)) }
{
    let len = tree.len();
    for k in 0..len {
        append_node(text, &tree.node(k + 1))?;
    }
    Ok(())
}

/// Appends the line of a node.
fn append_node(text: &mut Vec<u8>, node: &DocNode<'_>) -> Result<(), AllocError>
    ensures { OnOk result (text.new.items ≡ text.old.items ++ node_text (node_of node.now)) }
{
    match node {
        DocNode::Split(literal) => append_split(text, *literal),
        DocNode::Leaf(numbers) => append_leaf(text, numbers),
    }
}
