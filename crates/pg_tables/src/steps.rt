//! What a table of a step is over.

ghost use Rattle.std.specs.Prelude.{◌≡◌, ◌<◌, length};
ghost use Rattle.pg_tables.specs.Steps.{same_line};

use pg_program::Names;

/// Whether a location stands on the cache line of `x`.
pub fn same_line(names: &Names, x: u8, z: u8) -> bool
    requires x { x < length names.now.locations }
    requires z { z < length names.now.locations }
    ensures { result ≡ same_line names.now x z }
{
    names.line(z) == names.line(x)
}
