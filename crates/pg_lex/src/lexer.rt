//! The lexer: a place in a text, and the bytes from there on.

ghost use Rattle.std.specs.Prelude.{◌≡◌, ◌^◌, ◌<◌, length, MatchResult};

use crate::fault::TextFault;
use crate::scan;
use crate::token::Token;
use std::marker::Model;

/// Reads the tokens of a text in their order. Contracts see it as a `Cursor`.
#[derive(Drop)]
pub struct Lexer<'a> {
    at: u32,
    rest: &'a [u8],
}

impl<'a> Model for Lexer<'a> {
    ghost use Rattle.std.specs.Prelude.{ℕ, ◌+◌, ◌^◌, ◌<◌, length};
    ghost use Rattle.pg_lex.specs.Lex.{Cursor, cursor_code};

    ghost Value = { Cursor };

    ghost coded = { cursor_code };

    ghost view = { λ l. record { at = l.at; rest = l.rest.now } };

    ghost invariant = { λ l. l.at + length l.rest.now < 2 ^ 32 };
}

impl<'a> Lexer<'a> {
    ghost use Rattle.pg_lex.specs.Lex as spec;

    /// At the start of a text.
    pub fn make(text: &'a [u8]) -> Lexer<'a>
        requires { length text.now < 2 ^ 32 }
        ensures { result ≡ spec.start text.now }
    {
        Lexer { at: 0, rest: text }
    }

    /// A second lexer at the same place, for what may have to be read again.
    pub fn fork(&self) -> Lexer<'a>
        ensures { result ≡ self.now }
    {
        Lexer {
            at: self.at,
            rest: self.rest,
        }
    }

    /// The lexer after the blanks and comments.
    fn behind_gap(&self) -> Lexer<'a>
        ensures { result ≡ spec.behind_gap self.now }
    {
        let gap = scan::gap_len(self.rest);
        Lexer {
            at: self.at + gap as u32,
            rest: &self.rest[gap..],
        }
    }

    /// The next token, or the fault that the text has there. The lexer stays where it is.
    pub fn peek(&self) -> Result<Token<'a>, TextFault>
        ensures { MatchResult result (λ t. spec.token self.now ≡ Ok (spec.lexeme t))
            (λ e. spec.token self.now ≡ Err e) }
    {
        self.fork().next()
    }

    /// The next token, or the fault that the text has there. The lexer stands after the token
    /// then, and after a refusal where it stood.
    #[tactic(auto, unfolding(crate::specs::Lex::token, crate::specs::Lex::after))]
    pub fn next(&mut self) -> Result<Token<'a>, TextFault>
        ensures { MatchResult result
            (λ t. (spec.token self.old ≡ Ok (spec.lexeme t)) × (self.new ≡ spec.after self.old))
            (λ e. (spec.token self.old ≡ Err e) × (self.new ≡ self.old)) }
    {
        let front = self.behind_gap();
        match scan::piece_at(front.rest) {
            Ok(piece) => {
                self.at = front.at + piece.len as u32;
                self.rest = &front.rest[piece.len..];
                Ok(Token {
                    kind: piece.kind,
                    place: front.at,
                    text: &front.rest[..piece.len],
                })
            }
            Err(kind) => Err(TextFault::At {
                place: front.at,
                kind,
            }),
        }
    }
}
