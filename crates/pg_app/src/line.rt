//! The lines that are no report's. What is promised is each line, byte for byte, its newline included.

ghost use Rattle.std.specs.Prelude.{◌≡◌, IfOk};
ghost use Rattle.pg_app.specs.Line.{too_long};

use std::alloc::{AllocError, Global};

/// What is answered to words that are no command.
pub const USAGE: &[u8] =
    b"usage: check NAME [BUDGET] | obligations NAME | derive NAME [BUDGET] | verify NAME NAME | replay NAME NAME | made N [BUDGET]\n";

/// The line of a file that is longer than its limit.
pub fn too_long_line(alloc: Global, name: &str) -> Result<Vec<u8>, AllocError>
    ensures { IfOk result (λ line. line.items ≡ too_long name.now) }
{
    let mut line = Vec::from_slice(alloc, b"too long ")?;
    line.extend_from_slice(name.as_bytes())?;
    line.extend_from_slice(b"\n")?;
    Ok(line)
}
