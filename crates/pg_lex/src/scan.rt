//! Cuts one piece off the front of a slice of bytes: the blanks and comments, then a token.

ghost use Rattle.std.specs.Prelude.{◌≡◌, ◌≢◌, ◌^◌, ◌<◌, ◌≤◌, false, length, slice_index, take_while, MatchOption, IfOk, IfSome};
ghost use Rattle.std.specs.List.{prefix_len};
ghost use Rattle.pg_lex.specs.Piece as spec;

use crate::fault::TextKind;
use crate::token::{Sign, TokenKind};

/// A word has at most this many bytes.
const LONGEST_WORD: usize = 32;

/// A token without its place: what it is, and how many bytes it has.
#[derive(Clone, Copy)]
pub struct Piece {
    pub kind: TokenKind,
    pub len: usize,
}

fn is_blank(byte: u8) -> bool
    ensures { result ≡ spec.is_blank byte }
{
    matches!(byte, b' ' | b'\t' | b'\r' | b'\n')
}

fn is_lower(byte: u8) -> bool
    ensures { result ≡ spec.is_lower byte }
{
    matches!(byte, b'a'..=b'z')
}

fn is_digit(byte: u8) -> bool
    ensures { result ≡ spec.is_digit byte }
{
    matches!(byte, b'0'..=b'9')
}

fn is_word(byte: u8) -> bool
    ensures { result ≡ spec.is_word byte }
{
    is_lower(byte) || is_digit(byte) || byte == b'_'
}

fn is_letter(byte: u8) -> bool
    ensures { result ≡ spec.is_letter byte }
{
    matches!(byte, b'A' | b'C' | b'F' | b'L' | b'N' | b'O' | b'P' | b'R')
}

/// How many bytes of blanks and comments stand in front.
pub fn gap_len(bytes: &[u8]) -> usize
    ensures value { result ≡ spec.gap_len false bytes.now }
    ensures within { result ≤ length bytes.now }
{
    let mut in_comment = false;
    for (passed, byte) in bytes.iter().enumerate() {
        if in_comment {
            in_comment = *byte != b'\n';
        } else if *byte == b'#' {
            in_comment = true;
        } else if !is_blank(*byte) {
            return passed;
        }
    }
    bytes.len()
}

/// How many bytes in front may stand in a word.
fn word_len(bytes: &[u8]) -> usize
    ensures value { result ≡ prefix_len spec.is_word bytes.now }
    ensures within { result ≤ length bytes.now }
{
    bytes.iter().take_while(|byte| is_word(**byte)).count()
}

/// How many bytes in front are digits.
fn digits_len(bytes: &[u8]) -> usize
    ensures value { result ≡ prefix_len spec.is_digit bytes.now }
    ensures within { result ≤ length bytes.now }
{
    bytes.iter().take_while(|byte| is_digit(**byte)).count()
}

fn word(bytes: &[u8]) -> Result<Piece, TextKind>
    ensures value { result ≡ spec.word (prefix_len spec.is_word bytes.now) }
    ensures within { IfOk result (λ p. p.len ≤ length bytes.now) }
{
    let len = word_len(bytes);
    if len <= LONGEST_WORD {
        Ok(Piece {
            kind: TokenKind::Word,
            len,
        })
    } else {
        Err(TextKind::NameTooLong)
    }
}

/// The value of digits, where it fits 32 bits.
#[tactic(auto, using(crate::proofs::Digits::value_from_grows))]
fn value(digits: &[u8]) -> Option<u32>
    ensures { MatchOption result (2 ^ 32 ≤ spec.value digits.now) (λ n. n ≡ spec.value digits.now) }
{
    let mut n: u64 = 0;
    for byte in digits {
        n = 10 * n + u64::from(byte.saturating_sub(b'0'));
        if n > u64::from(u32::MAX) {
            return None;
        }
    }
    Some(n as u32)
}

fn number(bytes: &[u8]) -> Result<Piece, TextKind>
    ensures value { result ≡ spec.number (take_while spec.is_digit bytes.now) }
    ensures within { IfOk result (λ p. p.len ≤ length bytes.now) }
{
    let len = digits_len(bytes);
    match value(&bytes[..len]) {
        Some(n) => Ok(Piece {
            kind: TokenKind::Number(n),
            len,
        }),
        None => Err(TextKind::NumberTooLarge),
    }
}

/// The longest sign that begins with the first byte, where the second stands after it.
#[tactic(auto, unfolding(crate::specs::Piece::sign_of))]
fn sign_of(first: u8, second: u8) -> Option<Sign>
    ensures value { result ≡ spec.sign_of first second }
    ensures alone { IfSome result (λ s. second ≡ 0 → length (spec.spelling s) ≡ 1) }
{
    match (first, second) {
        (b':', b'=') => Some(Sign::Assign),
        (b'-', b'>') => Some(Sign::Arrow),
        (b'!', b'=') => Some(Sign::NotEqual),
        (b'=', _) => Some(Sign::Equal),
        (b'!', _) => Some(Sign::Not),
        (b'&', _) => Some(Sign::And),
        (b'|', _) => Some(Sign::Or),
        (b'+', _) => Some(Sign::Plus),
        (b'-', _) => Some(Sign::Minus),
        (b'*', _) => Some(Sign::Times),
        (b'(', _) => Some(Sign::Open),
        (b')', _) => Some(Sign::Close),
        (b'[', _) => Some(Sign::OpenSquare),
        (b']', _) => Some(Sign::CloseSquare),
        (b'{', _) => Some(Sign::OpenBrace),
        (b'}', _) => Some(Sign::CloseBrace),
        (b'<', _) => Some(Sign::Less),
        (b'>', _) => Some(Sign::Greater),
        (b';', _) => Some(Sign::Semicolon),
        (b',', _) => Some(Sign::Comma),
        _ => None,
    }
}

fn sign_len(sign: Sign) -> usize
    ensures value { result ≡ length (spec.spelling sign) }
    ensures bound { result ≤ 2 }
{
    match sign {
        Sign::Assign | Sign::Arrow | Sign::NotEqual => 2,
        _ => 1,
    }
}

/// The byte after the first, or 0 at the end.
fn second(bytes: &[u8]) -> u8
    ensures value { result ≡ slice_index bytes.now 1 }
    ensures within { result ≢ 0 → 1 < length bytes.now }
{
    if bytes.len() > 1 { bytes[1] } else { 0 }
}

fn sign(bytes: &[u8]) -> Result<Piece, TextKind>
    requires { 0 < length bytes.now }
    ensures value { result ≡ spec.sign (spec.sign_of (slice_index bytes.now 0) (slice_index bytes.now 1)) }
    ensures within { IfOk result (λ p. p.len ≤ length bytes.now) }
{
    match sign_of(bytes[0], second(bytes)) {
        Some(sign) => Ok(Piece {
            kind: TokenKind::Sign(sign),
            len: sign_len(sign),
        }),
        None => Err(TextKind::BadCharacter),
    }
}

/// The token in front, where no blank or comment stands there.
#[tactic(auto, unfolding(crate::specs::Piece::piece))]
pub fn piece_at(bytes: &[u8]) -> Result<Piece, TextKind>
    ensures value { result ≡ spec.piece bytes.now }
    ensures within { IfOk result (λ p. p.len ≤ length bytes.now) }
{
    let [first, ..] = bytes else {
        return Ok(Piece {
            kind: TokenKind::End,
            len: 0,
        });
    };
    if is_lower(*first) {
        word(bytes)
    } else if is_digit(*first) {
        number(bytes)
    } else if is_letter(*first) {
        Ok(Piece {
            kind: TokenKind::Letter(*first),
            len: 1,
        })
    } else if *first > 127 {
        Err(TextKind::NotAscii)
    } else {
        sign(bytes)
    }
}
