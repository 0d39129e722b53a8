//! Reading a derivation.

ghost use Rattle.std.specs.Prelude.{◌≡◌, ◌<◌, ◌≤◌, ◌+◌, ◌^◌, ℕ, List, [], ◌++◌, length, IfOk, OnOk};
ghost use Rattle.std.specs.List.{AllByRecursion};
ghost use Rattle.pg_region.specs.Pieces.{pieces};
ghost use Rattle.pg_derivation.specs.Derivation.{IsNumber};
ghost use Rattle.pg_derivation.specs.Kept.{nodes_in, IsKept, Rise};
ghost use Rattle.pg_derivation.specs.Place.{cursor, Tells};
ghost use Rattle.pg_derivation.specs.Fault as spec;
ghost use Rattle.pg_derivation.specs.Read.{Reads, Adds, ReadsTrees, alone};

use crate::derivation::Derivation;
use crate::kept::Kept;
use crate::place::Place;
use crate::words::{
    advance, behind, fault, has_more, keyword, literal, newline, number, says, space,
};
use pg_document::DocFault;
use std::alloc::Global;

/// The derivation that a text says, or its first fault: a word that can't stand where it is, a missing one, or the text's end where
/// it comes early; or another version. The text has fewer than 2^32 bytes.
pub fn parse_derivation(alloc: Global, text: &[u8]) -> Result<Derivation, DocFault>
    requires { length text.now < 2 ^ 32 }
    ensures { ReadsTrees result (spec.derivation_of text.now) }
{
    read(alloc, text)
}

/// The derivation that a text says, or its first fault.
#[tactic(auto, unfolding(crate::specs::Fault::derivation_of))]
fn read(alloc: Global, text: &[u8]) -> Result<Derivation, DocFault>
    requires { length text.now < 2 ^ 32 }
    ensures { ReadsTrees result (spec.derivation_of text.now) }
{
    let from = header(&Place { at: 0, rest: text })?;
    let mut numbers = Vec::new(alloc);
    let mut nodes = Vec::new(alloc);
    let mut ends = Vec::new(alloc);
    let after = trees(&from, &mut numbers, &mut nodes, &mut ends)?;
    closing(&after)?;
    Ok(Derivation::of(numbers, nodes, ends))
}

/// The place behind the first line.
#[tactic(auto, unfolding(crate::specs::Fault::header))]
fn header<'a>(place: &Place<'a>) -> Result<Place<'a>, DocFault>
    ensures said { Tells cursor result (spec.header (cursor place.now)) }
    ensures moves { IfOk result (λ p. place.now.at < p.at) }
{
    let from = space(&keyword(place, b"derivation")?)?;
    let (version, after) = number(&from)?;
    if version == 1 {
        newline(&after)
    } else {
        Err(DocFault::Version(version))
    }
}

/// The place behind the line of the obligation with this number.
#[tactic(auto, unfolding(crate::specs::Fault::obligation))]
fn obligation<'a>(place: &Place<'a>, i: u32) -> Result<Place<'a>, DocFault>
    ensures said { Tells cursor result (spec.obligation i (cursor place.now)) }
    ensures moves { IfOk result (λ p. place.now.at < p.at) }
    ensures fits { OnOk result (i < 2 ^ 31) }
{
    let from = space(&keyword(place, b"obligation")?)?;
    let (given, after) = number(&from)?;
    if given == i {
        newline(&after)
    } else {
        Err(fault(&from))
    }
}

/// The place behind the last line, which is the text's end.
#[tactic(auto, unfolding(crate::specs::Fault::closing))]
fn closing<'a>(place: &Place<'a>) -> Result<Place<'a>, DocFault>
    ensures said { Tells cursor result (spec.closing (cursor place.now)) }
    ensures moves { IfOk result (λ p. place.now.at < p.at) }
{
    let after = newline(&keyword(place, b"end")?)?;
    if after.rest.is_empty() {
        Ok(after)
    } else {
        Err(fault(&after))
    }
}

/// The place behind the numbers of a line, which are appended.
fn numbers<'a>(from: &Place<'a>, into: &mut Vec<u32>) -> Result<Place<'a>, DocFault>
    ensures said { Adds into.old.items into.new.items result (spec.numbers (length from.now.rest.now) (cursor from.now)) }
    ensures moves { IfOk result (λ p. length into.new.items + from.now.at ≤ length into.old.items + p.at) }
    ensures some { OnOk result (length into.old.items < length into.new.items) }
    ensures fits { OnOk result (AllByRecursion IsNumber into.old.items → AllByRecursion IsNumber into.new.items) }
{
    let turns = from.rest.len();
    let mut place = *from;
    'words: for _ in 0..turns {
        let (first, after) = number(&place)?;
        into.push(first)?;
        if !has_more(&after) {
            return newline(&after);
        }
        place = advance(&after, 1);
    }
    Err(fault(&place))
}

/// The place behind the line of a split, which is appended.
#[tactic(auto, unfolding(crate::specs::Fault::split_line))]
fn split_line<'a>(place: &Place<'a>, into: &mut Vec<Kept>) -> Result<Place<'a>, DocFault>
    ensures said { (ns : List ℕ) → Adds (nodes_in ns into.old.items) (nodes_in ns into.new.items) result (alone (spec.split_line (cursor place.now))) }
    ensures moves { IfOk result (λ p. place.now.at < p.at) }
    ensures one { OnOk result (length into.new.items ≡ length into.old.items + 1) }
    ensures whole { (ns : List ℕ) → IsKept ns into.old.items → OnOk result (IsKept ns into.new.items) }
{
    let from = space(&keyword(place, b"split")?)?;
    let chosen = literal(&from)?;
    let next = newline(&behind(&from))?;
    into.push(Kept::Split(chosen))?;
    Ok(next)
}

/// The place behind the line of a leaf, which is appended.
#[tactic(auto, unfolding(crate::specs::Fault::leaf_line))]
fn leaf_line<'a>(
    place: &Place<'a>,
    kept: &mut Vec<u32>,
    into: &mut Vec<Kept>,
) -> Result<Place<'a>, DocFault>
    requires numbers { length kept.old.items ≤ place.now.at }
    requires whole { IsKept kept.old.items into.old.items }
    ensures said { Adds (nodes_in kept.old.items into.old.items) (nodes_in kept.new.items into.new.items) result (alone (spec.leaf_line (cursor place.now))) }
    ensures moves { IfOk result (λ p. (place.now.at < p.at) × (length kept.new.items ≤ p.at)) }
    ensures one { OnOk result (length into.new.items ≡ length into.old.items + 1) }
    ensures whole { OnOk result (IsKept kept.new.items into.new.items) }
{
    let from = space(&keyword(place, b"leaf")?)?;
    let first = kept.len() as u32;
    let next = numbers(&from, kept)?;
    let last = kept.len() as u32;
    into.push(Kept::Leaf {
        from: first,
        to: last,
    })?;
    Ok(next)
}

/// The place behind the line of a node, which is appended.
fn node<'a>(
    place: &Place<'a>,
    kept: &mut Vec<u32>,
    into: &mut Vec<Kept>,
) -> Result<Place<'a>, DocFault>
    requires numbers { length kept.old.items ≤ place.now.at }
    requires whole { IsKept kept.old.items into.old.items }
    ensures said { Adds (nodes_in kept.old.items into.old.items) (nodes_in kept.new.items into.new.items) result (alone (spec.node (cursor place.now))) }
    ensures moves { IfOk result (λ p. (place.now.at < p.at) × (length kept.new.items ≤ p.at)) }
    ensures one { OnOk result (length into.new.items ≡ length into.old.items + 1) }
    ensures whole { OnOk result (IsKept kept.new.items into.new.items) }
{
    if says(place, b"split") {
        split_line(place, into)
    } else {
        leaf_line(place, kept, into)
    }
}

/// Whether a line of a tree stands at a place.
fn is_node(place: &Place<'_>) -> bool
    ensures { result ≡ spec.is_node (cursor place.now) }
{
    says(place, b"split") || says(place, b"leaf")
}

/// The place behind the nodes of a tree, which are appended.
fn nodes<'a>(
    from: &Place<'a>,
    kept: &mut Vec<u32>,
    into: &mut Vec<Kept>,
) -> Result<Place<'a>, DocFault>
    requires numbers { length kept.old.items ≤ from.now.at }
    requires whole { IsKept kept.old.items into.old.items }
    ensures said { Adds (nodes_in kept.old.items into.old.items) (nodes_in kept.new.items into.new.items) result (spec.nodes (length from.now.rest.now) (cursor from.now)) }
    ensures moves { IfOk result (λ p. (length into.new.items + from.now.at ≤ length into.old.items + p.at) × (length kept.new.items ≤ p.at)) }
    ensures some { OnOk result (length into.old.items < length into.new.items) }
    ensures whole { OnOk result (IsKept kept.new.items into.new.items) }
{
    let turns = from.rest.len();
    let mut place = *from;
    'lines: for _ in 0..turns {
        place = node(&place, kept, into)?;
        if !is_node(&place) {
            return Ok(place);
        }
    }
    Err(fault(&place))
}

/// The place behind the trees, which are appended.
fn trees<'a>(
    from: &Place<'a>,
    kept: &mut Vec<u32>,
    into: &mut Vec<Kept>,
    ends: &mut Vec<u32>,
) -> Result<Place<'a>, DocFault>
    requires { (kept.old.items ≡ []) × (into.old.items ≡ []) × (ends.old.items ≡ []) }
    ensures said { Reads (λ p. (pieces (nodes_in kept.new.items into.new.items) 0 ends.new.items, cursor p)) result (spec.trees (length from.now.rest.now) 1 (cursor from.now)) }
    ensures moves { IfOk result (λ p. length into.new.items + length ends.new.items + from.now.at ≤ p.at) }
    ensures few { OnOk result (length ends.new.items < 2 ^ 31) }
    ensures rise { OnOk result (Rise 0 ends.new.items (length into.new.items)) }
    ensures whole { OnOk result (IsKept kept.new.items into.new.items) }
{
    let turns = from.rest.len();
    let mut place = *from;
    'trees: for _ in 0..turns {
        if !says(&place, b"obligation") {
            return Ok(place);
        }
        let begun = obligation(&place, ends.len() as u32 + 1)?;
        place = nodes(&begun, kept, into)?;
        ends.push(into.len() as u32)?;
    }
    Err(fault(&place))
}
