//! Two values that are made one after the other.

ghost use Rattle.std.specs.Prelude.{◌≡◌, Ok, Err, IfOk, IfErr};

/// A value that was made, and the next one, where that was made too. Where it was not, the first is let go. A function that holds a
/// statement or a formula while the next part may fail has one exit by this, and not one for each way to let go of it.
pub fn beside<A: Drop, B, E>(first: A, second: Result<B, E>) -> Result<(A, B), E>
    ensures ok { IfOk result (λ p. (p.0 ≡ first) × (second ≡ Ok p.1)) }
    ensures err { IfErr result (λ e. second ≡ Err e) }
{
    let second = second?;
    Ok((first, second))
}
