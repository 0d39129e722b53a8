//! The words of a line.

ghost use Rattle.std.specs.Prelude.{◌≡◌, ◌+◌, ◌^◌, ◌<◌, ◌≤◌, ◌∷◌, [], not, length, MatchOption, MatchResult, IfOk, OnOk, Ok, Err};
ghost use Rattle.std.specs.List.{prefix_len};
ghost use Rattle.pg_schedule.specs.Words as spec;
ghost use Rattle.pg_schedule.specs.Words.{piece};
ghost use Rattle.pg_schedule.specs.Reading as read;

use crate::number::number_of;
use pg_document::DocFault;
use std::marker::Model;

/// A word, and how many bytes of the text stand in front of it.
#[derive(Clone, Copy)]
pub struct Word<'a> {
    pub place: u32,
    pub text: &'a [u8],
}

impl<'a> Word<'a> {
    /// The number that the word is, or the fault that it is none.
    pub fn number(&self) -> Result<u32, DocFault>
        ensures small { IfOk result (λ n. n < 2 ^ 32) }
        ensures value { MatchResult result (λ n. read.number_in self.now.text.now ≡ Some n)
            (λ e. (read.number_in self.now.text.now ≡ None) × (e ≡ DocFault.Unexpected self.now.place)) }
    {
        number_of(self.text).ok_or(DocFault::Unexpected(self.place))
    }
}

/// Reads the words of a line in their order. Contracts see it as the words that are left.
#[derive(Drop)]
pub struct Words<'a> {
    at: u32,
    rest: &'a [u8],
}

impl<'a> Model for Words<'a> {
    ghost use Rattle.std.specs.Prelude.{◌+◌, ◌^◌, ◌<◌, length};
    ghost use Rattle.pg_schedule.specs.Words.{Words, words};

    ghost Value = { Words };

    ghost view = { λ w. words w.at w.rest.now };

    ghost invariant = { λ w. w.at + length w.rest.now < 2 ^ 32 };
}

impl<'a> Words<'a> {
    /// The words of a line that begins at a place.
    pub fn of(at: u32, line: &'a [u8]) -> Words<'a>
        requires { at + length line.now < 2 ^ 32 }
        ensures { result ≡ spec.words at line.now }
    {
        Words { at, rest: line }
    }

    /// The same words once more.
    pub fn fork(&self) -> Words<'a>
        ensures { result ≡ self.now }
    {
        Words {
            at: self.at,
            rest: self.rest,
        }
    }

    /// The next word, which is taken.
    pub fn next(&mut self) -> Option<Word<'a>>
        ensures few { length self.new.left < 2 ^ 32 }
        ensures word { MatchOption result ((self.old.left ≡ []) × (self.new ≡ self.old))
            (λ w. (self.old.left ≡ piece w.place w.text.now ∷ self.new.left) × (self.new.end ≡ self.old.end)) }
    {
        let blanks = blanks_len(self.rest);
        let rest = &self.rest[blanks..];
        if rest.is_empty() {
            return None;
        }
        let len = word_len(rest);
        let place = self.at + blanks as u32;
        self.at = place + len as u32;
        self.rest = &rest[len..];
        Some(Word {
            place,
            text: &rest[..len],
        })
    }

    /// The place where a word is missing.
    fn end(&self) -> u32
        ensures { result ≡ self.now.end }
    {
        self.at + self.rest.len() as u32
    }

    /// Whether no word is left.
    pub fn is_empty(&self) -> bool
        ensures { result ≡ spec.is_empty self.now.left }
    {
        self.fork().next().is_none()
    }

    /// Whether the next word is this one.
    pub fn begins(&self, text: &[u8]) -> bool
        ensures { result ≡ read.is_first text.now self.now.left }
    {
        match self.fork().next() {
            Some(word) => word.text == text,
            None => false,
        }
    }

    /// Whether a line with these words says something: it has words, and its first one does not begin with `#`.
    pub fn say(&self) -> bool
        ensures { result ≡ spec.says self.now.left }
    {
        match self.fork().next() {
            Some(word) => !matches!(word.text, [b'#', ..]),
            None => false,
        }
    }

    /// The fault that the first word that is left can't stand, or that one is missing.
    pub fn unexpected(&self) -> DocFault
        ensures { result ≡ DocFault.Unexpected (read.place_of self.now.left self.now.end) }
    {
        match self.fork().next() {
            Some(word) => DocFault::Unexpected(word.place),
            None => DocFault::Unexpected(self.end()),
        }
    }

    /// Takes the next word, which has to be this one.
    #[tactic(auto, unfolding(crate::specs::Reading::keyword))]
    pub fn keyword(&mut self, text: &[u8]) -> Result<(), DocFault>
        ensures few { OnOk result (length self.new.left < 2 ^ 32) }
        ensures word { MatchResult result (λ _. read.keyword text.now self.old ≡ Ok (tt, self.new)) (λ e. read.keyword text.now self.old ≡ Err e) }
    {
        if !self.begins(text) {
            return Err(self.unexpected());
        }
        let _word = self.next();
        Ok(())
    }

    /// Takes the next word, which has to be a number.
    #[tactic(auto, unfolding(crate::specs::Reading::number))]
    pub fn number(&mut self) -> Result<u32, DocFault>
        ensures small { IfOk result (λ n. n < 2 ^ 32) }
        ensures value { MatchResult result (λ n. read.number self.old ≡ Ok (n, self.new)) (λ e. read.number self.old ≡ Err e) }
    {
        match self.next() {
            Some(word) => word.number(),
            None => Err(DocFault::Unexpected(self.end())),
        }
    }

    /// That no word is left.
    #[tactic(auto, unfolding(crate::specs::Reading::ended))]
    pub fn ended(&self) -> Result<(), DocFault>
        ensures { MatchResult result (λ _. read.ended self.now ≡ Ok (tt, self.now)) (λ e. read.ended self.now ≡ Err e) }
    {
        if self.is_empty() {
            Ok(())
        } else {
            Err(self.unexpected())
        }
    }
}

fn is_blank(byte: u8) -> bool
    ensures { result ≡ spec.is_blank byte }
{
    matches!(byte, b' ' | b'\t' | b'\r')
}

/// How many blanks stand in front.
fn blanks_len(bytes: &[u8]) -> usize
    ensures value { result ≡ prefix_len spec.is_blank bytes.now }
    ensures within { result ≤ length bytes.now }
{
    bytes.iter().take_while(|byte| is_blank(**byte)).count()
}

/// How many bytes in front are no blanks.
fn word_len(bytes: &[u8]) -> usize
    ensures value { result ≡ prefix_len (λ b. not (spec.is_blank b)) bytes.now }
    ensures within { result ≤ length bytes.now }
{
    bytes.iter().take_while(|byte| !is_blank(**byte)).count()
}
