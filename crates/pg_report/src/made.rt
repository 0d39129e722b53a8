//! The text of the judgement of a made outline.

ghost use Rattle.std.specs.Prelude.{◌≡◌, ◌++◌, ◌≤◌, IfOk, OnOk, codes, decimal};
ghost use Rattle.pg_judge.specs.Outcome.{outcome_of};
ghost use Rattle.pg_report.specs.Judged.{IsToldOf};
ghost use Rattle.pg_report.specs.Made as spec;
ghost use Rattle.pg_report.specs.Reported.{ReportsLines};

use crate::fault::ReportFault;
use crate::judged::append_judgement;
use crate::lines::put_lines;
use crate::words::append_line;
use itoa::Buffer;
use pg_io::Sink;
use pg_judge::Judgement;
use pg_outline::Outline;
use std::alloc::{AllocError, Global};

/// Puts the text of the judgement of a made outline of n statements, each line as one piece: `made` with that number, the lines of the
/// judgement, and, where it is accepted, `nodes` with how many nodes were visited.
pub fn report_made<K: Sink>(
    alloc: Global,
    n: u32,
    o: &Outline,
    judgement: &Judgement,
    out: &mut K,
) -> Result<(), ReportFault>
    requires { IsToldOf o.now (outcome_of judgement.now) }
    ensures lines { ReportsLines (spec.made_text n o.now (outcome_of judgement.now)) result (K.written out.old) (K.written out.new) (K.faults out.old) (K.faults out.new) }
    ensures faults { K.faults out.old ≤ K.faults out.new }
{
    let text = made_text(alloc, n, o, judgement)?;
    put_lines(&text, out)
}

/// The text.
fn made_text(
    alloc: Global,
    n: u32,
    o: &Outline,
    judgement: &Judgement,
) -> Result<Vec<u8>, AllocError>
    requires { IsToldOf o.now (outcome_of judgement.now) }
    ensures { IfOk result (λ text. text.items ≡ spec.made_text n o.now (outcome_of judgement.now)) }
{
    let mut text = Vec::new(alloc);
    append_made(n, o, judgement, &mut text)?;
    Ok(text)
}

/// Appends the text.
fn append_made(
    n: u32,
    o: &Outline,
    judgement: &Judgement,
    text: &mut Vec<u8>,
) -> Result<(), AllocError>
    requires { IsToldOf o.now (outcome_of judgement.now) }
    ensures { OnOk result (text.new.items ≡ text.old.items ++ spec.made_text n o.now (outcome_of judgement.now)) }
{
    append_line(b"made ", n, text)?;
    append_judgement(o, judgement, text)?;
    append_nodes(judgement, text)
}

/// Appends how many nodes were visited, where the outline is accepted.
fn append_nodes(judgement: &Judgement, text: &mut Vec<u8>) -> Result<(), AllocError>
    ensures { OnOk result (text.new.items ≡ text.old.items ++ spec.nodes_line (outcome_of judgement.now)) }
{
    match judgement {
        Judgement::Accepted { nodes, .. } => append_sum(*nodes, text),
        Judgement::Rejected { .. } | Judgement::Spent { .. } => Ok(()),
    }
}

/// Appends the line of a number of nodes.
fn append_sum(nodes: u64, text: &mut Vec<u8>) -> Result<(), AllocError>
    ensures { OnOk result (text.new.items ≡ text.old.items ++ (codes "nodes " ++ (decimal nodes ++ codes "\n"))) }
{
    text.extend_from_slice(b"nodes ")?;
    text.extend_from_slice(Buffer::new().format(nodes).as_bytes())?;
    text.extend_from_slice(b"\n")
}
