//! The reserved words that statements are spelled with.

ghost use Rattle.std.specs.Prelude.{◌≡◌};
ghost use Rattle.pg_lex.specs.Lex.{lexeme};
ghost use Rattle.pg_program_text.specs.Keywords as spec;

use pg_lex::{Token, TokenKind};

/// A reserved word of statements.
#[derive(Clone, Copy)]
pub enum Keyword {
    Mfence,
    Sfence,
    Flush,
    Flushopt,
    Cas,
    If,
    Else,
    While,
}

/// The keyword that a token is, if it is one.
#[tactic(auto, unfolding(crate::specs::Keywords::keyword))]
pub fn keyword_at(token: &Token<'_>) -> Option<Keyword>
    ensures { result ≡ spec.keyword (lexeme token.now) }
{
    match token.kind {
        TokenKind::Word => keyword_of(token.text),
        _ => None,
    }
}

fn keyword_of(word: &[u8]) -> Option<Keyword>
    ensures { result ≡ spec.keyword_of word.now }
{
    if word == b"mfence".as_slice() {
        Some(Keyword::Mfence)
    } else if word == b"sfence".as_slice() {
        Some(Keyword::Sfence)
    } else if word == b"flush".as_slice() {
        Some(Keyword::Flush)
    } else if word == b"flushopt".as_slice() {
        Some(Keyword::Flushopt)
    } else if word == b"cas".as_slice() {
        Some(Keyword::Cas)
    } else if word == b"if".as_slice() {
        Some(Keyword::If)
    } else if word == b"else".as_slice() {
        Some(Keyword::Else)
    } else if word == b"while".as_slice() {
        Some(Keyword::While)
    } else {
        None
    }
}
