//! Numbers in words.

ghost use Rattle.std.specs.Prelude.{◌≡◌, ◌^◌, ◌<◌, ◌≤◌, MatchOption};
ghost use Rattle.std.specs.Str.{all_ascii_digits};
ghost use Rattle.pg_schedule.specs.Reading as read;

/// The number that a word is, if it is one.
pub fn number_of(text: &[u8]) -> Option<u32>
    ensures { result ≡ read.number_in text.now }
{
    if text.is_empty() || !are_digits(text) {
        return None;
    }
    value(text)
}

fn are_digits(text: &[u8]) -> bool
    ensures { result ≡ all_ascii_digits text.now }
{
    for byte in text {
        if !byte.is_ascii_digit() {
            return false;
        }
    }
    true
}

/// The value of digits, where it fits 32 bits.
#[tactic(auto, using(crate::proofs::Digits::value_from_grows))]
fn value(digits: &[u8]) -> Option<u32>
    ensures { MatchOption result (2 ^ 32 ≤ read.value_from 0 digits.now) (λ n. n ≡ read.value_from 0 digits.now) }
{
    let mut n: u64 = 0;
    for byte in digits {
        n = 10 * n + u64::from(byte.saturating_sub(b'0'));
        if n > u64::from(u32::MAX) {
            return None;
        }
    }
    Some(n as u32)
}
