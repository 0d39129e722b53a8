//! Atoms that are not in use yet.

ghost use Rattle.std.specs.Prelude.{◌≡◌};

use std::marker::Model;

/// The number of the next new atom. All atoms from there on are new.
#[derive(Clone, Copy, Debug)]
pub struct Fresh {
    next: u32,
}

impl Model for Fresh {
    ghost use Rattle.std.specs.Prelude.{ℕ};

    ghost Value = { ℕ };

    ghost view = { λ f. f.next };

    ghost inverse = { λ n. record { next = n } };
}

impl Fresh {
    /// The atoms from this number on.
    pub fn from(next: u32) -> Fresh
        ensures { result ≡ next }
    {
        Fresh { next }
    }

    /// The number of the next one.
    pub fn next(&self) -> u32
        ensures { result ≡ self.now }
    {
        self.next
    }
}
