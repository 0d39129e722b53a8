//! The positions of a location among the messages, and the values there. A message is its location and its value.

ghost use Rattle.std.specs.Prelude.{◌≡◌, ℕ, List, ◌<◌, ◌≤◌, true, length, MatchOption};
ghost use Rattle.pg_machine.specs.Memory.{is_at, value_at, last, is_clear};
ghost use Rattle.pg_machine.specs.Fault.{IsLeastHiding};
ghost use Rattle.pg_machine.specs.Limits.{most_messages};

/// Whether a position is one of the location.
pub fn is_at(messages: &[(u8, u8)], location: u8, position: u32) -> bool
    ensures { result ≡ is_at messages.now location position }
{
    if position == 0 {
        return true;
    }
    let place = position as usize - 1;
    place < messages.len() && messages[place].0 == location
}

/// The value at a position of the location.
pub fn value_at(initial: &[u8], messages: &[(u8, u8)], location: u8, position: u32) -> u8
    requires location { location < length initial.now }
    requires position { position ≤ length messages.now }
    ensures { (lines : List ℕ) → result ≡ value_at (record { initial = initial.now; lines = lines; messages = messages.now }) location position }
{
    if position == 0 {
        return initial[usize::from(location)];
    }
    messages[position as usize - 1].1
}

/// The greatest position of the location.
pub fn last(messages: &[(u8, u8)], location: u8) -> u32
    requires { length messages.now ≤ most_messages }
    ensures { result ≡ last messages.now location }
{
    let mut last: u32 = 0;
    for (i, message) in messages.iter().enumerate() {
        if message.0 == location {
            last = i as u32 + 1;
        }
    }
    last
}

/// The least position of the location that is above `position` and at most `bound`.
pub fn hiding(messages: &[(u8, u8)], location: u8, position: u32, bound: u32) -> Option<u32>
    requires position { position ≤ length messages.now }
    requires few { length messages.now ≤ most_messages }
    ensures { MatchOption result (is_clear messages.now location position bound ≡ true) (λ q. IsLeastHiding messages.now location position bound q) }
{
    let end = bound.min(messages.len() as u32);
    for later in position + 1..end + 1 {
        if is_at(messages, location, later) {
            return Some(later);
        }
    }
    None
}
