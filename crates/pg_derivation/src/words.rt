//! What stands at a place of a text: words, numbers, the end of a line.

ghost use Rattle.std.specs.Prelude.{◌≡◌, ◌<◌, ◌≤◌, ◌+◌, ◌==◌, true, length, slice_index, IfOk, IfSome};
ghost use Rattle.std.specs.List.{prefix_len};
ghost use Rattle.pg_document.specs.declared.fault.DocFault.TheVariants.{Unexpected};
ghost use Rattle.pg_derivation.specs.Derivation.{IsNumber};
ghost use Rattle.pg_derivation.specs.Fault as spec;
ghost use Rattle.pg_derivation.specs.Place.{cursor, Tells};

use crate::place::Place;
use pg_document::DocFault;
use pg_region::Lit;

/// A number of a derivation is at most this.
const GREATEST: u64 = (1 << 31) - 1;

/// Whether a byte may stand in a word.
fn in_word(byte: u8) -> bool
    ensures { result ≡ spec.in_word byte }
{
    !(byte == b' ' || byte == b'\n')
}

/// How many bytes the word has.
fn word_len(bytes: &[u8]) -> usize
    ensures value { result ≡ prefix_len spec.in_word bytes.now }
    ensures within { result ≤ length bytes.now }
{
    bytes.iter().take_while(|byte| in_word(**byte)).count()
}

/// The word at a place.
pub fn word<'a>(place: &Place<'a>) -> &'a [u8]
    ensures { result.now ≡ spec.word (cursor place.now) }
{
    &place.rest[..word_len(place.rest)]
}

/// The place so many bytes further on.
pub fn advance<'a>(place: &Place<'a>, bytes: usize) -> Place<'a>
    requires { bytes ≤ length place.now.rest.now }
    ensures { cursor result ≡ spec.advance bytes (cursor place.now) }
{
    Place {
        at: place.at + bytes as u32,
        rest: &place.rest[bytes..],
    }
}

/// The place behind the word.
pub fn behind<'a>(place: &Place<'a>) -> Place<'a>
    ensures { cursor result ≡ spec.behind (cursor place.now) }
{
    advance(place, word_len(place.rest))
}

/// The fault of what stands at a place.
pub fn fault(place: &Place<'_>) -> DocFault
    ensures { result ≡ Unexpected place.now.at }
{
    DocFault::Unexpected(place.at)
}

/// Whether this word stands at a place.
pub fn says(place: &Place<'_>, expected: &[u8]) -> bool
    ensures { result ≡ spec.says expected.now (cursor place.now) }
{
    word(place) == expected
}

/// The place behind this word.
pub fn keyword<'a>(place: &Place<'a>, expected: &[u8]) -> Result<Place<'a>, DocFault>
    ensures said { Tells cursor result (spec.keyword expected.now (cursor place.now)) }
    ensures moves { IfOk result (λ p. place.now.at ≤ p.at) }
{
    if says(place, expected) {
        Ok(behind(place))
    } else {
        Err(fault(place))
    }
}

/// The place behind the space that stands behind a word.
pub fn space<'a>(place: &Place<'a>) -> Result<Place<'a>, DocFault>
    ensures said { Tells cursor result (spec.space (cursor place.now)) }
    ensures moves { IfOk result (λ p. place.now.at < p.at) }
{
    match place.rest {
        [b' ', ..] => Ok(advance(place, 1)),
        _ => Err(fault(place)),
    }
}

/// The place behind the newline that stands behind a word.
pub fn newline<'a>(place: &Place<'a>) -> Result<Place<'a>, DocFault>
    ensures said { Tells cursor result (spec.newline (cursor place.now)) }
    ensures moves { IfOk result (λ p. place.now.at < p.at) }
{
    match place.rest {
        [] => Err(fault(place)),
        [b'\n', ..] => Ok(advance(place, 1)),
        [_, ..] => Err(fault(&advance(place, 1))),
    }
}

/// Whether a word follows behind this place, which stands behind a word.
pub fn has_more(place: &Place<'_>) -> bool
    ensures value { result ≡ (slice_index place.now.rest.now 0 == 32) }
    ensures within { result ≡ true → 0 < length place.now.rest.now }
{
    matches!(place.rest, [b' ', ..])
}

/// Whether a byte is a digit.
fn is_digit(byte: u8) -> bool
    ensures { result ≡ spec.is_digit byte }
{
    matches!(byte, b'0'..=b'9')
}

/// What digits spell, unless it is above the greatest number.
fn value_of(digits: &[u8]) -> Option<u32>
    ensures { result ≡ spec.value_after 0 digits.now }
{
    let mut value: u64 = 0;
    for digit in digits {
        if !is_digit(*digit) {
            return None;
        }
        value = value * 10 + u64::from(*digit - b'0');
        if value > GREATEST {
            return None;
        }
    }
    Some(value as u32)
}

/// The number that a word spells.
#[tactic(auto, unfolding(crate::specs::Fault::number_in))]
fn number_in(word: &[u8]) -> Option<u32>
    ensures { result ≡ spec.number_in word.now }
{
    let [first, ..] = word else {
        return None;
    };
    if *first == b'0' {
        return None;
    }
    value_of(word)
}

/// The literal that a word spells.
#[tactic(auto, unfolding(crate::specs::Fault::literal_in))]
fn literal_in(word: &[u8]) -> Option<Lit>
    ensures { result ≡ spec.literal_in word.now }
{
    let [first, digits @ ..] = word else {
        return None;
    };
    if *first == b'-' {
        Some(Lit::of(number_in(digits)?, false))
    } else {
        Some(Lit::of(number_in(word)?, true))
    }
}

/// The number at a place, and the place behind it.
pub fn number<'a>(place: &Place<'a>) -> Result<(u32, Place<'a>), DocFault>
    ensures said { Tells (λ x. (x.0, cursor x.1)) result (spec.number (cursor place.now)) }
    ensures moves { IfOk result (λ x. place.now.at ≤ x.1.at) }
    ensures fits { IfOk result (λ x. IsNumber x.0) }
{
    match number_in(word(place)) {
        Some(number) => Ok((number, behind(place))),
        None => Err(fault(place)),
    }
}

/// The literal at a place.
pub fn literal(place: &Place<'_>) -> Result<Lit, DocFault>
    ensures said { Tells (λ l. (l, spec.behind (cursor place.now))) result (spec.literal (cursor place.now)) }
    ensures fits { IfOk result (λ l. IsNumber l.atom) }
{
    match literal_in(word(place)) {
        Some(literal) => Ok(literal),
        None => Err(fault(place)),
    }
}
