//! Derivations of outlines, and what the check of their trees answers.

ghost use Rattle.std.specs.Prelude.{◌≡◌, []};

use crate::derivations::derivation;
use crate::outlines::NOTHING;
use pg_cases::{agree, on};
use pg_derivation::Derivation;
use pg_derive::{VerifyFault, verify};
use pg_layers::Loader;
use pg_obligations::Obligations;
use pg_outline::Outline;
use pg_region::Region;
use pg_tree::{Trail, TreeFault, check_tree};
use std::alloc::{AllocError, Global};
use std::test::Fail;

/// Derivations of an outline, and how many obligations each proves, or why it does not.
struct Group {
    outline: &'static [u8],
    derivations: &'static [(&'static [u8], &'static str)],
}

/// A precondition whose definition repeats a literal, and one whose definition has a literal and its negation. Either way the
/// goal of the first obligation is the precondition, and the fourth clause of the second is the unit of what defines it.
const REPEATED: &[u8] =
    b"pierogi 1; values 2; location x = 0; pre L(x,0) | L(x,0); thread 1 { [L(x,0)] }";

const OPPOSITE: &[u8] =
    b"pierogi 1; values 2; location x = 0; pre L(x,0) | !L(x,0); thread 1 { [L(x,0)] }";

/// Where nothing is held, the first obligation has the clauses 7 and not 7 over seven atoms, and each of the others 7, 7, 8 and not 8 over
/// eight.
static GROUPS: [Group; 3] = [
    Group {
        outline: NOTHING,
        derivations: &[
            (
                b"derivation 1\nobligation 1\nleaf 1 2\nobligation 2\nleaf 3 4\nobligation 3\nleaf 3 4\nend\n",
                "proved 3",
            ),
            (
                b"derivation 1\nobligation 1\nleaf 2 1\nobligation 2\nleaf 1 4 3\nobligation 3\nleaf 2 3 4\nend\n",
                "proved 3",
            ),
            // Splits at an atom of no clause, and at one that is false or true then.
            (
                b"derivation 1\nobligation 1\nsplit 5\nleaf 1 2\nleaf 2 1\nobligation 2\nleaf 3 4\nobligation 3\nsplit -8\nleaf 3\nsplit 1\nleaf 4\nleaf 4\nend\n",
                "proved 3",
            ),
            // No conflict.
            (
                b"derivation 1\nobligation 1\nleaf 1 2\nobligation 2\nleaf 1 4\nobligation 3\nleaf 3 4\nend\n",
                "tree 2 is refused: no conflict on line 5",
            ),
            (
                b"derivation 1\nobligation 1\nleaf 2\nend\n",
                "tree 1 is refused: no conflict on line 3",
            ),
            // What a leaf adds is gone behind it.
            (
                b"derivation 1\nobligation 1\nsplit 1\nleaf 1 2\nleaf 2\nend\n",
                "tree 1 is refused: no conflict on line 5",
            ),
            // No such clause.
            (
                b"derivation 1\nobligation 1\nleaf 1 2\nobligation 2\nleaf 5 3\nobligation 3\nleaf 3 4\nend\n",
                "tree 2 is refused: no clause 5 on line 5",
            ),
            (
                b"derivation 1\nobligation 1\nleaf 1 3\nend\n",
                "tree 1 is refused: no clause 3 on line 3",
            ),
            (
                b"derivation 1\nobligation 1\nleaf 2147483647\nend\n",
                "tree 1 is refused: no clause 2147483647 on line 3",
            ),
            // A clause that is not unit: true already; false already; and before a number that no clause has.
            (
                b"derivation 1\nobligation 1\nleaf 1 2\nobligation 2\nleaf 3 4\nobligation 3\nleaf 1 2 4\nend\n",
                "tree 3 is refused: clause 2 is not unit on line 7",
            ),
            (
                b"derivation 1\nobligation 1\nleaf 1 2 2\nend\n",
                "tree 1 is refused: clause 2 is not unit on line 3",
            ),
            (
                b"derivation 1\nobligation 1\nleaf 1 2\nobligation 2\nleaf 3 3 9\nend\n",
                "tree 2 is refused: clause 3 is not unit on line 5",
            ),
            // A literal that can't be split at: of an atom that the obligation has not, or that has a value.
            (
                b"derivation 1\nobligation 1\nsplit 8\nleaf 1 2\nleaf 1 2\nend\n",
                "tree 1 is refused: bad literal on line 3",
            ),
            (
                b"derivation 1\nobligation 1\nsplit 1\nsplit -1\nend\n",
                "tree 1 is refused: bad literal on line 4",
            ),
            (
                b"derivation 1\nobligation 1\nsplit 1\nleaf 1 2\nsplit 1\nend\n",
                "tree 1 is refused: bad literal on line 5",
            ),
            // A tree that is not complete.
            (
                b"derivation 1\nobligation 1\nsplit 1\nobligation 2\nleaf 3 4\nobligation 3\nleaf 3 4\nend\n",
                "tree 1 is refused: the tree ends early, on line 3",
            ),
            (
                b"derivation 1\nobligation 1\nsplit 7\nleaf 2\nend\n",
                "tree 1 is refused: the tree ends early, on line 4",
            ),
            // A line behind a tree, whatever it says.
            (
                b"derivation 1\nobligation 1\nsplit 7\nleaf 2\nleaf 1\nleaf 9\nend\n",
                "tree 1 is refused: line 6 is too much",
            ),
            (
                b"derivation 1\nobligation 1\nleaf 1 2\nsplit 99\nend\n",
                "tree 1 is refused: line 4 is too much",
            ),
            // Too few trees, and too many.
            (b"derivation 1\nend\n", "no tree for obligation 1"),
            (
                b"derivation 1\nobligation 1\nleaf 1 2\nobligation 2\nleaf 3 4\nend\n",
                "no tree for obligation 3",
            ),
            (
                b"derivation 1\nobligation 1\nleaf 1 2\nobligation 2\nleaf 3 4\nobligation 3\nleaf 3 4\nobligation 4\nleaf 3 4\nend\n",
                "no obligation for tree 4",
            ),
            (
                b"derivation 1\nobligation 1\nleaf 1 2\nobligation 2\nleaf 3 4\nobligation 3\nleaf 3 4\nobligation 4\nleaf 99\nobligation 5\nsplit 1\nend\n",
                "no obligation for tree 4",
            ),
            // A fault in a tree comes before those.
            (
                b"derivation 1\nobligation 1\nleaf 1 2\nobligation 2\nleaf 3 4\nobligation 3\nleaf 4\nobligation 4\nleaf 3 4\nend\n",
                "tree 3 is refused: no conflict on line 7",
            ),
        ],
    },
    Group {
        outline: REPEATED,
        derivations: &[
            // A literal that stands twice counts once, and one with its negation twice.
            (
                b"derivation 1\nobligation 1\nleaf 1 5 7\nobligation 2\nleaf 4 1 5\nobligation 3\nleaf 5 6\nend\n",
                "proved 3",
            ),
            (
                b"derivation 1\nobligation 1\nleaf 1 6 7\nobligation 2\nsplit 1\nleaf 5\nsplit 37\nleaf 1\nleaf 4\nobligation 3\nleaf 6 5\nend\n",
                "proved 3",
            ),
        ],
    },
    Group {
        outline: OPPOSITE,
        derivations: &[(
            b"derivation 1\nobligation 1\nleaf 1 5 7\nobligation 2\nleaf 4 1 5\nend\n",
            "tree 2 is refused: clause 1 is not unit on line 5",
        )],
    },
];

/// The answer to the check of a derivation.
fn answer_to(alloc: Global, o: &Outline, text: &[u8]) -> Result<Result<u32, VerifyFault>, Fail> {
    let d = derivation(alloc, text)?;
    Ok(verify(alloc, o, &d))
}

/// An answer in words.
fn written(alloc: Global, answer: Result<u32, VerifyFault>) -> Result<String, AllocError> {
    match answer {
        Ok(count) => format!(in alloc; "proved {count}"),
        Err(fault) => format!(in alloc; "{fault}"),
    }
}

/// Passes where the check of a derivation has this answer.
pub fn is_answered(alloc: Global, o: &Outline, text: &[u8], wanted: &str) -> Result<(), Fail> {
    let found = written(alloc, answer_to(alloc, o, text)?)?;
    agree(found.as_str(), wanted, text)
}

/// Passes where the check of each derivation of a group has its answer.
fn are_answered(alloc: Global, o: &Outline, group: &Group) -> Result<(), Fail> {
    for (text, wanted) in group.derivations {
        is_answered(alloc, o, *text, *wanted)?;
    }
    Ok(())
}

/// Passes where the check of each derivation of each group has its answer.
fn groups_are_answered(alloc: Global, groups: &[Group]) -> Result<(), Fail> {
    for group in groups {
        on(alloc, group.outline, |o| are_answered(alloc, o, group))?;
    }
    Ok(())
}

#[test]
fn trees_are_checked(rt: HostRuntime) -> Result<(), Fail> {
    groups_are_answered(rt.alloc(), &GROUPS)
}

/// The first fault of the first tree of a derivation, where the region has no clauses.
fn fault_in(
    o: &Outline,
    d: &Derivation,
    trail: &mut Trail,
    region: &mut Region,
) -> Result<Option<TreeFault>, Fail>
    requires { region.old.clauses ≡ [] }
{
    let mut loader = Loader::of(o);
    if d.trees() < 1 || Obligations::of(o).count() < 1 {
        return Err(Fail::new("there is no tree, or no obligation"));
    }
    match loader.load(1, region) {
        Ok(loaded) => Ok(check_tree(region, loaded, &d.tree(1), trail).err()),
        Err(_) => Err(Fail::new("the region is full")),
    }
}

/// The same on a region that is large enough.
fn fault_of(
    alloc: Global,
    o: &Outline,
    d: &Derivation,
    trail: &mut Trail,
) -> Result<Option<TreeFault>, Fail> {
    let needs = Loader::of(o).needs();
    let mut region = Region::make(alloc, needs.words, needs.spans)?;
    fault_in(o, d, trail, &mut region)
}

/// The same with a trail for so many atoms.
fn fault_over(
    alloc: Global,
    o: &Outline,
    d: &Derivation,
    atoms: u32,
) -> Result<Option<TreeFault>, Fail> {
    let mut trail = Trail::make(alloc, atoms)?;
    fault_of(alloc, o, d, &mut trail)
}

/// The same, of the text of a derivation.
fn first_fault(
    alloc: Global,
    o: &Outline,
    text: &[u8],
    atoms: u32,
) -> Result<Option<TreeFault>, Fail> {
    let d = derivation(alloc, text)?;
    fault_over(alloc, o, &d, atoms)
}

/// Passes where a trail for six atoms is too short for the first tree of a derivation, and one for seven is not.
fn needs_seven(alloc: Global, o: &Outline, text: &[u8]) -> Result<(), Fail> {
    let short = first_fault(alloc, o, text, 6)?;
    agree(short, Some(TreeFault::TrailFull(6)), text)?;
    let enough = first_fault(alloc, o, text, 7)?;
    agree(enough, None, text)
}

#[test]
fn trails_have_room_for_all_atoms(rt: HostRuntime) -> Result<(), Fail> {
    let alloc = rt.alloc();
    let text = b"derivation 1\nobligation 1\nleaf 1 2\nend\n";
    on(alloc, NOTHING, |o| needs_seven(alloc, o, text))
}
