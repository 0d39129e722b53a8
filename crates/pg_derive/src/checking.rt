//! Checking a derivation of an outline.

ghost use Rattle.std.specs.Prelude.{◌≡◌, ◌≤◌, IfOk, length};
ghost use Rattle.pg_judge.specs.Laws.{IsProved};
ghost use Rattle.pg_judge.specs.Outcome.{obligation_count};
ghost use Rattle.pg_derive.specs.Desk.{IsSet};
ghost use Rattle.pg_derive.specs.Verified.{IsAnswer, IsNeverFull, AreChecked};

use crate::desk::Desk;
use crate::fault::VerifyFault;
use pg_derivation::Derivation;
use pg_obligations::Obligations;
use pg_outline::Outline;
use std::alloc::Global;

/// Checks each tree of a derivation against the obligation with its number, in their order, and then that there are no fewer and no
/// more trees than obligations. Answers how many there are. The trail has room for the atoms of each obligation, so no tree is
/// refused for want of it.
pub fn verify(alloc: Global, o: &Outline, d: &Derivation) -> Result<u32, VerifyFault>
    ensures answer { IsAnswer o.now d.now result }
    ensures room { IsNeverFull result }
    ensures proved { IfOk result (λ _. IsProved o.now) }
{
    let _scalars = o.program().names().scalars();
    let count = Obligations::of(o).count();
    let trees = d.trees();
    let mut desk = Desk::make(alloc, o)?;
    if trees < count {
        check_trees(&mut desk, d, trees)?;
        return Err(VerifyFault::Missing(trees + 1));
    }
    check_trees(&mut desk, d, count)?;
    if count < trees {
        return Err(VerifyFault::Extra(count + 1));
    }
    Ok(count)
}

/// Checks the first trees.
fn check_trees(desk: &mut Desk<'_>, d: &Derivation, count: u32) -> Result<(), VerifyFault>
    requires obligations { count ≤ obligation_count desk.old.loader.outline }
    requires trees { count ≤ length d.now }
    requires set { IsSet desk.old.loader.outline desk.old.loader desk.old.region desk.old.trail }
    ensures { AreChecked desk.old.loader.outline d.now count result }
{
    'trees: for i in 0..count {
        match desk.check(i + 1, &d.tree(i + 1)) {
            Ok(()) => {}
            Err(fault) => return Err(VerifyFault::Tree { i: i + 1, fault }),
        }
    }
    Ok(())
}
