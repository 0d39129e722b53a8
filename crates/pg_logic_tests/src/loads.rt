//! Loads of obligations out of their order, how many clauses they push, and loads on regions that are too small.

ghost use Rattle.std.specs.Prelude.{◌≡◌, ◌≤◌, length, IfOk};
ghost use Rattle.pg_region.specs.Range.{Fits};
ghost use Rattle.pg_obligations.specs.Obligations.{obligations};
ghost use Rattle.pg_layers.specs.Layers.{left};

use pg_cases::{agree, on};
use pg_layers::Loader;
use pg_obligations::Obligations;
use pg_outline::Outline;
use pg_region::{Full, Lit, Loaded, Region};
use std::alloc::Global;
use std::test::Fail;

/// A flush between two stores, with nine obligations, of which the fourth on are two each of the three steps.
const FLUSHED: &[u8] =
    b"pierogi 1; values 2; location x = 0; location y = 0; pre !P(y,1); crash y = 1 -> x = 1; thread 1 { [!P(y,1)] x := 1; [!P(y,1) & L(x,1) & F(1,x)] flush x; [!P(x,0)] y := 1; [!P(x,0)] }";

/// The load of an obligation: how many clauses and atoms it has, and how many clauses were pushed on the region by then.
struct Case {
    i: u32,
    clauses: u32,
    atoms: u32,
    pushes: u64,
}

/// The axioms of a side have 108 clauses, which the first load pushes for both, the rules of a store 89, and those of the flush 82. So the
/// first pushes 216 + 82 + 115, and those behind it 115 again, 2 without a step, 62 of the step whose rules still lie there, 89 + 109 of
/// another one, 7 without a step, 56, 55 without a step, 89 + 62, 109, 82 + 115 back at the flush, and 89 + 62 back again.
static LOADS: [Case; 12] = [
    Case {
        i: 7,
        clauses: 413,
        atoms: 130,
        pushes: 413,
    },
    Case {
        i: 7,
        clauses: 413,
        atoms: 130,
        pushes: 528,
    },
    Case {
        i: 2,
        clauses: 110,
        atoms: 82,
        pushes: 530,
    },
    Case {
        i: 6,
        clauses: 360,
        atoms: 107,
        pushes: 592,
    },
    Case {
        i: 9,
        clauses: 414,
        atoms: 128,
        pushes: 790,
    },
    Case {
        i: 1,
        clauses: 115,
        atoms: 82,
        pushes: 797,
    },
    Case {
        i: 8,
        clauses: 361,
        atoms: 105,
        pushes: 853,
    },
    Case {
        i: 3,
        clauses: 163,
        atoms: 105,
        pushes: 908,
    },
    Case {
        i: 4,
        clauses: 367,
        atoms: 107,
        pushes: 1059,
    },
    Case {
        i: 5,
        clauses: 414,
        atoms: 128,
        pushes: 1168,
    },
    Case {
        i: 7,
        clauses: 413,
        atoms: 130,
        pushes: 1365,
    },
    Case {
        i: 4,
        clauses: 367,
        atoms: 107,
        pushes: 1516,
    },
];

/// Loads the obligation with a number.
fn load(loader: &mut Loader<'_>, i: u32, region: &mut Region) -> Result<Loaded, Fail>
    requires number { (1 ≤ i) × (i ≤ length (obligations loader.old.outline.program)) }
    requires laid { region.old.clauses ≡ left loader.old }
    ensures fits { IfOk result (λ loaded. Fits loaded region.new.clauses) }
    ensures outline { loader.new.outline ≡ loader.old.outline }
    ensures laid { region.new.clauses ≡ left loader.new }
{
    Ok(loader.load(i, region)?)
}

/// Whether two clauses have the same literals in the same order.
fn same(clause: &[Lit], other: &[Lit]) -> bool {
    clause.len() == other.len() && clause.iter().zip(other).all(|(x, y)| x.is(*y))
}

/// Whether two obligations, each on its region, have the same clauses in the same order.
fn agree_in_clauses(region: &Region, loaded: Loaded, other: &Region, alone: Loaded) -> bool
    requires fits { Fits loaded region.now.clauses }
    requires others { Fits alone other.now.clauses }
{
    let count = loaded.range.count();
    if count != alone.range.count() {
        return false;
    }
    for k in 0..count {
        if !same(
            loaded.range.clause(region, k + 1),
            alone.range.clause(other, k + 1),
        ) {
            return false;
        }
    }
    true
}

/// Whether an obligation was loaded as a loader loads it that loads nothing else.
fn is_as_alone(
    alloc: Global,
    o: &Outline,
    i: u32,
    region: &Region,
    loaded: Loaded,
) -> Result<bool, Fail>
    requires number { (1 ≤ i) × (i ≤ length (obligations o.now.program)) }
    requires fits { Fits loaded region.now.clauses }
{
    let mut loader = Loader::of(o);
    let needs = loader.needs();
    let mut other = Region::make(alloc, needs.words, needs.spans)?;
    let alone = load(&mut loader, i, &mut other)?;
    Ok(agree_in_clauses(region, loaded, &other, alone))
}

/// Passes where an obligation is loaded as the case says, and as a loader loads it that loads nothing else.
fn is_loaded(
    alloc: Global,
    o: &Outline,
    loader: &mut Loader<'_>,
    region: &mut Region,
    case: &Case,
) -> Result<(), Fail>
    requires outline { loader.old.outline ≡ o.now }
    requires laid { region.old.clauses ≡ left loader.old }
    ensures outline { loader.new.outline ≡ o.now }
    ensures laid { region.new.clauses ≡ left loader.new }
{
    if case.i < 1 || case.i > Obligations::of(o).count() {
        return Err(Fail::new("there is no such obligation"));
    }
    let loaded = load(loader, case.i, region)?;
    let found = (loaded.range.count(), loaded.atoms, region.pushes());
    agree(found, (case.clauses, case.atoms, case.pushes), b"a load")?;
    let is_alone = is_as_alone(alloc, o, case.i, region, loaded)?;
    agree(is_alone, true, b"its clauses")
}

/// Loads one after the other on a region of the size that is enough.
fn are_loaded(alloc: Global, o: &Outline) -> Result<(), Fail> {
    let mut loader = Loader::of(o);
    let needs = loader.needs();
    let mut region = Region::make(alloc, needs.words, needs.spans)?;
    for case in &LOADS {
        is_loaded(alloc, o, &mut loader, &mut region, case)?;
    }
    Ok(())
}

/// Passes where a region with these many words and spans less than is enough is full for the first obligation, and stays empty.
fn is_full(alloc: Global, o: &Outline, words: u32, spans: u32) -> Result<(), Fail> {
    let mut loader = Loader::of(o);
    let needs = loader.needs();
    if words > needs.words || spans > needs.spans || Obligations::of(o).count() < 1 {
        return Err(Fail::new("so much is not needed"));
    }
    let mut region = Region::make(alloc, needs.words - words, needs.spans - spans)?;
    match loader.load(1, &mut region) {
        Err(Full) if region.clauses() == 0 => Ok(()),
        _ => Err(Fail::new("the region is not full")),
    }
}

#[test]
fn loads_go_in_layers(rt: HostRuntime) -> Result<(), Fail> {
    let alloc = rt.alloc();
    on(alloc, FLUSHED, |o| are_loaded(alloc, o))
}

#[test]
fn too_small_a_region_is_full(rt: HostRuntime) -> Result<(), Fail> {
    let alloc = rt.alloc();
    on(alloc, FLUSHED, |o| {
        is_full(alloc, o, 1, 0)?;
        is_full(alloc, o, 0, 1)
    })
}
