//! The threads of an outline, read from their tokens.

ghost use Rattle.std.specs.Prelude.{◌≡◌, map};
ghost use Rattle.pg_assertion_text.specs.Input.{Does, Reads};
ghost use Rattle.pg_program_text.specs.Text.{lines};
ghost use Rattle.pg_outline_text.specs.Reading as spec;

use crate::word::{Keyword, is_keyword};
use pg_assertion_text::Tokens;
use pg_assertion_text::tokens::{is_sign, named, refused, unexpected};
use pg_lex::{Sign, TextFault, TextKind, TokenKind};
use pg_program::Names;
use pg_program_text::{ThreadText, parse_thread};
use std::alloc::Global;

/// How many threads an outline may have.
pub const MAX_THREADS: u32 = 4;

/// The word `thread`, if one more may come.
#[tactic(auto, unfolding(crate::specs::Reading::opened))]
fn opened(tokens: &mut Tokens<'_>) -> Result<(), TextFault>
    ensures { Does (λ u. u) (spec.opened tokens.old) result tokens.new }
{
    let token = tokens.next()?;
    if is_keyword(Keyword::Thread, &token) {
        tokens.node(token.place)
    } else {
        Err(unexpected(token.place))
    }
}

/// The number that this thread has to have.
#[tactic(auto, unfolding(crate::specs::Reading::own_number))]
fn own_number(tokens: &mut Tokens<'_>, number: u64) -> Result<(), TextFault>
    ensures { Does (λ u. u) (spec.own_number number tokens.old) result tokens.new }
{
    let token = tokens.next()?;
    match token.kind {
        TokenKind::Number(n) if u64::from(n) == number => Ok(()),
        _ => Err(unexpected(token.place)),
    }
}

/// Takes the brace that ends a thread. A statement may stand in its place, so that a name which is not declared is unknown there.
#[tactic(auto, unfolding(crate::specs::Reading::close))]
fn close(tokens: &mut Tokens<'_>, names: &Names) -> Result<(), TextFault>
    ensures { Does (λ u. u) (spec.close names.now tokens.old) result tokens.new }
{
    let token = tokens.next()?;
    if is_sign(Sign::CloseBrace, token.kind) {
        return Ok(());
    }
    match named(names, &token) {
        Ok(_) => Err(unexpected(token.place)),
        Err(kind) => Err(refused(token.place, kind)),
    }
}

/// The thread with this number.
#[tactic(auto, unfolding(crate::specs::Reading::thread))]
fn thread(
    alloc: Global,
    tokens: &mut Tokens<'_>,
    names: &Names,
    number: u64,
) -> Result<ThreadText, TextFault>
    ensures { Reads lines (spec.thread names.now number tokens.old) result tokens.new }
{
    opened(tokens)?;
    own_number(tokens, number)?;
    tokens.expect(Sign::OpenBrace)?;
    let mut lexer = tokens.lexer();
    let text = parse_thread(alloc, &mut lexer, names)?;
    tokens.go_to(&lexer);
    close(tokens, names)?;
    Ok(text)
}

/// Whether the text ends here.
fn is_end(kind: TokenKind) -> bool
    ensures { result ≡ spec.is_end kind }
{
    matches!(kind, TokenKind::End)
}

/// The threads, up to the end of the text.
#[tactic(auto, unfolding(crate::specs::Reading::threads))]
pub fn threads(
    alloc: Global,
    tokens: &mut Tokens<'_>,
    names: &Names,
) -> Result<Vec<ThreadText>, TextFault>
    ensures { Reads (λ ts. map lines ts.items) (spec.threads names.now tokens.old) result tokens.new }
{
    let mut found = Vec::new(alloc);
    'threads: for i in 0..tokens.turns() {
        let text = thread(alloc, tokens, names, i + 1)?;
        found.push(text)?;
        let token = tokens.peek()?;
        if is_end(token.kind) {
            return Ok(found);
        }
    }
    Err(refused(0, TextKind::TooMany))
}
