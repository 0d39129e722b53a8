//! The words that an outline is laid out by.

ghost use Rattle.std.specs.Prelude.{◌≡◌};
ghost use Rattle.pg_assertion_text.specs.Input.{Does};
ghost use Rattle.pg_lex.specs.Lex.{lexeme};
ghost use Rattle.pg_outline_text.specs.Word as spec;

use pg_assertion_text::Tokens;
use pg_assertion_text::tokens::unexpected;
use pg_lex::{TextFault, Token, TokenKind};

/// A reserved word of outlines.
#[derive(Clone, Copy, Debug, PartialEq, Eq)]
pub enum Keyword {
    Pierogi,
    Values,
    Location,
    Register,
    Of,
    Auxiliary,
    Pre,
    Crash,
    Thread,
}

/// How the word is spelled.
fn spelling(keyword: Keyword) -> &'static [u8]
    ensures { result.now ≡ spec.spelling keyword }
{
    match keyword {
        Keyword::Pierogi => b"pierogi",
        Keyword::Values => b"values",
        Keyword::Location => b"location",
        Keyword::Register => b"register",
        Keyword::Of => b"of",
        Keyword::Auxiliary => b"auxiliary",
        Keyword::Pre => b"pre",
        Keyword::Crash => b"crash",
        Keyword::Thread => b"thread",
    }
}

/// Whether a token is this word.
#[tactic(auto, unfolding(crate::specs::Word::is_keyword))]
pub fn is_keyword(keyword: Keyword, token: &Token<'_>) -> bool
    ensures { result ≡ spec.is_keyword keyword (lexeme token.now) }
{
    match token.kind {
        TokenKind::Word => token.text == spelling(keyword),
        _ => false,
    }
}

/// Takes a word that has to come. After a fault the tokens may stand anywhere.
#[tactic(auto, unfolding(crate::specs::Word::expect_word))]
pub fn expect_word(tokens: &mut Tokens<'_>, keyword: Keyword) -> Result<(), TextFault>
    ensures { Does (λ u. u) (spec.expect_word keyword tokens.old) result tokens.new }
{
    let token = tokens.next()?;
    if is_keyword(keyword, &token) {
        Ok(())
    } else {
        Err(unexpected(token.place))
    }
}
