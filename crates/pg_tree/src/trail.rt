//! What a tree is checked with. Its memory is taken once.

ghost use Rattle.std.specs.Prelude.{◌≡◌, IfOk};

use crate::path::Path;
use std::alloc::{AllocError, Global};
use std::marker::Model;

/// Room for the way down to any node of a tree over so many atoms: its literals, and the places of those that were split at and
/// whose second subtree is still to come.
#[derive(Drop)]
pub struct Trail {
    pub(crate) path: Path,
    pub(crate) marks: Vec<u32>,
}

impl Model for Trail {
    ghost use Rattle.std.specs.Prelude.{ℕ, ◌+◌, ◌≤◌, vec_capacity};

    ghost Value = { ℕ };

    ghost view = { λ t. t.path.atoms };

    ghost invariant = { λ t. t.path.atoms + 1 ≤ vec_capacity t.marks };
}

impl Trail {
    /// A trail for so many atoms. There is no memory for 2^31 atoms, or more.
    pub fn make(alloc: Global, atoms: u32) -> Result<Trail, AllocError>
        ensures { IfOk result (λ t. t ≡ atoms) }
    {
        if atoms >= 2147483648 {
            return Err(AllocError);
        }
        let path = Path::make(alloc, atoms)?;
        let marks = Vec::with_capacity(alloc, atoms as usize + 1)?;
        Ok(Trail { path, marks })
    }
}
