//! The lines of a text.

ghost use Rattle.std.specs.Prelude.{◌≡◌, ◌+◌, ◌^◌, ◌<◌, ◌≤◌, ◌∷◌, [], not, length, MatchOption, IfSome};
ghost use Rattle.std.specs.List.{prefix_len};
ghost use Rattle.pg_schedule.specs.Words as spec;

use crate::words::Words;
use std::marker::Model;

/// A line of a text, by its number from 1 on.
#[derive(Drop)]
pub struct Line<'a> {
    pub number: u32,
    pub words: Words<'a>,
}

/// Reads the lines of a text in their order. Contracts see it as the lines that are left.
#[derive(Drop)]
pub struct Lines<'a> {
    passed: u32,
    at: u32,
    rest: &'a [u8],
}

impl<'a> Model for Lines<'a> {
    ghost use Rattle.std.specs.Prelude.{List, ◌+◌, ◌^◌, ◌<◌, ◌≤◌, length};
    ghost use Rattle.pg_schedule.specs.Words.{TextLine, lines_from, pieces, is_newline};

    ghost Value = { List TextLine };

    ghost view = { λ l. lines_from (l.passed + 1) (pieces is_newline l.at l.rest.now) };

    ghost invariant = { λ l. (l.at + length l.rest.now < 2 ^ 32) × (l.passed ≤ l.at) };
}

impl<'a> Lines<'a> {
    /// The lines of a text.
    pub fn of(text: &'a [u8]) -> Lines<'a>
        requires { length text.now < 2 ^ 32 }
        ensures lines { result ≡ spec.lines text.now }
        ensures few { length result < 2 ^ 32 }
    {
        Lines {
            passed: 0,
            at: 0,
            rest: text,
        }
    }

    /// The next line, which is taken.
    pub fn next(&mut self) -> Option<Line<'a>>
        ensures { MatchOption result (self.old ≡ [])
            (λ l. self.old ≡ record { number = l.number; words = l.words } ∷ self.new) }
    {
        if self.rest.is_empty() {
            return None;
        }
        let len = line_len(self.rest);
        let line = Line {
            number: self.passed + 1,
            words: Words::of(self.at, &self.rest[..len]),
        };
        let behind = self.rest.len().min(len + 1);
        self.passed += 1;
        self.at += behind as u32;
        self.rest = &self.rest[behind..];
        Some(line)
    }

    /// The next line that says something, which is taken with those in front of it.
    pub fn next_saying(&mut self) -> Option<Line<'a>>
        ensures fewer { IfSome result (λ _. length self.new < length self.old) }
        ensures line { MatchOption result (spec.saying self.old ≡ [])
            (λ l. spec.saying self.old ≡ record { number = l.number; words = l.words } ∷ spec.saying self.new) }
    {
        'lines: while let Some(line) = self.next() {
            if line.words.say() {
                return Some(line);
            }
        }
        None
    }
}

/// How many bytes stand in front of the first newline, or of the end.
fn line_len(bytes: &[u8]) -> usize
    ensures value { result ≡ prefix_len (λ b. not (spec.is_newline b)) bytes.now }
    ensures within { result ≤ length bytes.now }
{
    bytes.iter().take_while(|byte| **byte != b'\n').count()
}
