//! What the trees of a derivation are checked with. Its memory is taken once.

ghost use Rattle.std.specs.Prelude.{◌≡◌, ◌≤◌, None, Some, IfOk, MatchResult};
ghost use Rattle.pg_judge.specs.Outcome.{obligation_count};
ghost use Rattle.pg_derive.specs.Desk.{IsSet};
ghost use Rattle.pg_derive.specs.Verified.{fault_for};

use pg_derivation::TreeView;
use pg_layers::Loader;
use pg_outline::Outline;
use pg_region::Region;
use pg_tree::{Trail, TreeFault, check_tree};
use std::alloc::{AllocError, Global};

/// A region for the clauses of one obligation after the other, and a trail.
#[derive(Drop)]
pub struct Desk<'a> {
    pub loader: Loader<'a>,
    pub region: Region,
    pub trail: Trail,
}

impl<'a> Desk<'a> {
    /// A desk for the obligations of an outline.
    pub fn make(alloc: Global, o: &'a Outline) -> Result<Desk<'a>, AllocError>
        ensures { IfOk result (λ d. IsSet o.now d.loader d.region d.trail) }
    {
        let loader = Loader::of(o);
        let needs = loader.needs();
        let region = Region::make(alloc, needs.words, needs.spans)?;
        let trail = Trail::make(alloc, needs.atoms)?;
        Ok(Desk {
            loader,
            region,
            trail,
        })
    }

    /// Checks a tree as one for obligation i.
    pub fn check(&mut self, i: u32, tree: &TreeView<'_>) -> Result<(), TreeFault>
        requires number { (1 ≤ i) × (i ≤ obligation_count self.old.loader.outline) }
        requires set { IsSet self.old.loader.outline self.old.loader self.old.region self.old.trail }
        ensures set { IsSet self.old.loader.outline self.new.loader self.new.region self.new.trail }
        ensures fault { MatchResult result (λ _. fault_for self.old.loader.outline i tree.now ≡ None) (λ f. fault_for self.old.loader.outline i tree.now ≡ Some f) }
    {
        let loaded = match self.loader.load(i, &mut self.region) {
            Ok(loaded) => loaded,
            Err(_) => unreachable!(),
        };
        check_tree(&self.region, loaded, tree, &mut self.trail)
    }
}
