//! Scalars that break a clause where they stand.

ghost use Rattle.std.specs.Prelude.{◌≡◌, ◌∷◌, []};
ghost use Rattle.std.specs.List.{find};
ghost use Rattle.pg_program.specs.Clause.{is_sought};

use crate::name_table::{NameKind, Names};

/// Which scalars are sought.
#[derive(Clone, Copy)]
pub enum Sought {
    /// The registers of other threads than this one.
    Foreign { thread: u8 },
    /// The auxiliaries.
    Auxiliary,
}

/// The scalar, if it is sought.
pub fn if_sought(r: u8, names: &Names, sought: Sought) -> Option<u8>
    ensures { result ≡ find (is_sought sought names.now) (r ∷ []) }
{
    is_sought(r, names, sought).then_some(r)
}

fn is_sought(r: u8, names: &Names, sought: Sought) -> bool
    ensures { result ≡ is_sought sought names.now r }
{
    if r >= names.scalars() {
        return false;
    }
    match (sought, names.kind(r)) {
        (Sought::Foreign { thread }, NameKind::Register { owner }) => owner != u32::from(thread),
        (Sought::Auxiliary, NameKind::Auxiliary) => true,
        _ => false,
    }
}
