//! Lists of positions.

ghost use Rattle.std.specs.Prelude.{◌≡◌, ◌≤◌, length};
ghost use Rattle.pg_machine.specs.State.{greatest, greatest_on};
ghost use Rattle.pg_machine.specs.Moves.{greater};

/// The greatest of some positions, and 0 of none.
pub fn greatest(positions: &[u32]) -> u32
    ensures { result ≡ greatest positions.now }
{
    let mut most: u32 = 0;
    for position in positions {
        most = most.max(*position);
    }
    most
}

/// The greatest of those positions of the locations that stand on a line, and 0 where there is none. Each location has its
/// line.
pub fn greatest_on(lines: &[u8], positions: &[u32], line: u8) -> u32
    requires { length positions.now ≤ length lines.now }
    ensures { result ≡ greatest_on lines.now positions.now line }
{
    let mut most: u32 = 0;
    for (i, position) in positions.iter().enumerate() {
        if lines[i] == line {
            most = most.max(*position);
        }
    }
    most
}

/// Raises each position to the one at its place of others, where that is greater.
pub fn raise(positions: &mut [u32], others: &[u32])
    requires { length positions.old ≡ length others.now }
    ensures { positions.new ≡ greater positions.old others.now }
{
    for i in 0..positions.len() {
        positions[i] = positions[i].max(others[i]);
    }
}
