//! The lines of a closed tree.

ghost use Rattle.std.specs.Prelude.{◌≡◌, ◌-◌, ◌≤◌, OnOk, length};
ghost use Rattle.pg_region.specs.Range.{listed, Fits};
ghost use Rattle.pg_decider.specs.Leaf.{IsLog};
ghost use Rattle.pg_derive.specs.Puts.{Puts};
ghost use Rattle.pg_derive.specs.Begun.{IsNodeText, IsFirstText, IsSomeText};

use crate::fault::DeriveFault;
use crate::lines::put;
use pg_decider::{TreeLog, TreeNode, Workspace};
use pg_derivation::{append_leaf, append_split};
use pg_io::Sink;
use pg_region::{Loaded, Region};
use std::alloc::AllocError;

/// Writes the line of the node with the number i of a log, from 1 on, over what stands in `line`.
fn write_node(
    workspace: &mut Workspace,
    region: &Region,
    loaded: Loaded,
    log: &TreeLog,
    i: u32,
    line: &mut Vec<u8>,
) -> Result<(), AllocError>
    requires fits { Fits loaded region.now.clauses }
    requires atoms { loaded.atoms ≤ workspace.old.atoms }
    requires clauses { length (listed region.now.clauses loaded.range) ≤ workspace.old.clauses }
    requires log { IsLog (listed region.now.clauses loaded.range) log.now.lines }
    requires node { (1 ≤ i) × (i ≤ length log.now.lines) }
    ensures made { (workspace.new.atoms ≡ workspace.old.atoms) × (workspace.new.clauses ≡ workspace.old.clauses) }
    ensures line { OnOk result (IsNodeText (listed region.now.clauses loaded.range) log.now.lines (i - 1) line.new.items) }
{
    line.clear();
    match log.node(i) {
        TreeNode::Split(literal) => append_split(line, literal),
        TreeNode::Leaf => append_leaf(line, workspace.leaf(region, loaded, log, i)),
    }
}

/// Puts the line of each node of the log of a closed tree. `line` is room for one.
pub fn put_tree<K: Sink>(
    workspace: &mut Workspace,
    region: &Region,
    loaded: Loaded,
    log: &TreeLog,
    line: &mut Vec<u8>,
    out: &mut K,
) -> Result<(), DeriveFault>
    requires fits { Fits loaded region.now.clauses }
    requires atoms { loaded.atoms ≤ workspace.old.atoms }
    requires clauses { length (listed region.now.clauses loaded.range) ≤ workspace.old.clauses }
    requires log { IsLog (listed region.now.clauses loaded.range) log.now.lines }
    ensures made { (workspace.new.atoms ≡ workspace.old.atoms) × (workspace.new.clauses ≡ workspace.old.clauses) }
    ensures lines { Puts (λ _ text. IsFirstText (listed region.now.clauses loaded.range) log.now.lines (length log.now.lines) text) (IsSomeText (listed region.now.clauses loaded.range) log.now.lines) result (K.written out.old) (K.written out.new) (K.faults out.old) (K.faults out.new) }
    ensures faults { K.faults out.old ≤ K.faults out.new }
{
    'nodes: for k in 0..log.len() {
        write_node(workspace, region, loaded, log, k + 1, line)?;
        put(line, out)?;
    }
    Ok(())
}
