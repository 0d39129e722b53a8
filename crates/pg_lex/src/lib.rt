//! The tokens of the project's texts, read one at a time from a slice of bytes, without memory.
//!
//! What the crate promises the layer above: `next` and `peek` give the token, or the fault, that
//! the text has after the lexer's place, and nothing else. Both answer by one definition, `token`
//! of a cursor (`specs/Lex.antt`); `next` then stands after the token, and after a refusal where
//! it stood. At the end of the text `next` gives `End`, again and again. The laws in `laws` say
//! what that definition is in the words of grammars: a token is the longest prefix of its class,
//! and in front of it there are blanks and comments alone. Each call reads a byte a fixed number
//! of times, and no byte after its token but the next.

#![tactic(auto)]

pub mod fault;
pub mod laws;
pub mod lexer;
mod scan;
pub mod token;

pub use fault::{TextFault, TextKind};
pub use lexer::Lexer;
pub use token::{Sign, Token, TokenKind};
