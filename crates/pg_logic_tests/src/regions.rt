//! What is spare in a region of clauses, when it is full, and what a mark brings back.

use pg_cases::agree;
use pg_region::{Lit, Region};
use std::test::Fail;

/// The spare words and the spare spans of a region, and its clauses, each by their number.
fn room(region: &Region) -> (u32, u32, u32) {
    (region.spare_words(), region.spare_spans(), region.clauses())
}

/// Passes where a push of so many literals is answered so, after which a region has this room.
fn pushes(
    region: &mut Region,
    literals: &[Lit],
    fits: bool,
    after: (u32, u32, u32),
) -> Result<(), Fail> {
    agree(region.push(literals).is_ok(), fits, b"a push")?;
    agree(room(region), after, b"a push")
}

/// Passes where a region of four words and two spans takes three literals, then no two more, one more and nothing at all.
fn is_filled(region: &mut Region) -> Result<(), Fail> {
    let first = Lit::of(1, true);
    let last = Lit::of(2147483647, false);
    pushes(region, &[first, first, last], true, (1, 1, 1))?;
    pushes(region, &[first, last], false, (1, 1, 1))?;
    pushes(region, &[last], true, (0, 0, 2))?;
    pushes(region, &[], false, (0, 0, 2))
}

#[test]
fn a_region_is_filled_and_cut_back(rt: HostRuntime) -> Result<(), Fail> {
    let mut region = Region::make(rt.alloc(), 4, 2)?;
    let start = region.mark();
    is_filled(&mut region)?;
    if region.clauses() < 2 {
        return Err(Fail::new("clauses are lost"));
    }
    region.release(start);
    agree(room(&region), (4, 2, 0), b"a release")
}
