//! Expressions, read from their tokens. A bracket opens a level; nothing else is read by recursion.

ghost use Rattle.std.specs.Prelude.{◌≡◌, option_map, IfOk};
ghost use Rattle.pg_assertion_text.specs.Input.{Does, Reads};
ghost use Rattle.pg_assertion_text.specs.Words.{IsText};
ghost use Rattle.pg_lex.specs.Lex.{lexeme};
ghost use Rattle.pg_program_text.specs.Expr as spec;

use pg_assertion_text::Tokens;
use pg_assertion_text::tokens::{endless, named, refused, unexpected};
use pg_lex::{Sign, TextFault, TextKind, Token, TokenKind};
use pg_program::{Expr, NameRef, Names, beside};
use sqlite_items::Boxed;
use std::alloc::{AllocError, Global};

/// What a sign makes of the expressions on its two sides.
fn joined(alloc: Global, sign: Sign, a: Expr, b: Expr) -> Result<Expr, AllocError>
    ensures { IfOk result (λ c. c ≡ spec.by_sign sign a b) }
{
    let a = Boxed::new(alloc, a)?;
    let b = Boxed::new(alloc, b)?;
    Ok(match sign {
        Sign::Times => Expr::Mul(a, b),
        Sign::Minus => Expr::Sub(a, b),
        _ => Expr::Add(a, b),
    })
}

/// The sign that a term goes on with, if it does.
#[tactic(auto, unfolding(crate::specs::Expr::times))]
fn times(tokens: &mut Tokens<'_>) -> Result<Option<Sign>, TextFault>
    ensures { Does (λ z. z) (spec.times tokens.old) result tokens.new }
{
    if tokens.goes_on(Sign::Times)? {
        Ok(Some(Sign::Times))
    } else {
        Ok(None)
    }
}

/// The sign that an expression goes on with, if it does.
#[tactic(auto, unfolding(crate::specs::Expr::plus_or_minus))]
fn plus_or_minus(tokens: &mut Tokens<'_>) -> Result<Option<Sign>, TextFault>
    ensures { Does (λ z. z) (spec.plus_or_minus tokens.old) result tokens.new }
{
    if tokens.goes_on(Sign::Plus)? {
        return Ok(Some(Sign::Plus));
    }
    if tokens.goes_on(Sign::Minus)? {
        Ok(Some(Sign::Minus))
    } else {
        Ok(None)
    }
}

/// Terms with `+` or `-` between them, in which so many brackets may be open at once.
#[cycle(expr)]
#[tactic(auto, unfolding(crate::specs::Expr::sum, crate::specs::Expr::linked))]
pub fn sum(
    alloc: Global,
    tokens: &mut Tokens<'_>,
    names: &Names,
    levels: u32,
) -> Result<Expr, TextFault>
    ensures { Reads (λ a. a) (spec.sum (spec.factor_of names.now levels) tokens.old) result tokens.new }
{
    let mut left = product(alloc, tokens, names, levels)?;
    'signs: for _i in 0..tokens.turns() {
        let (read, sign) = beside(left, plus_or_minus(tokens))?;
        let sign = match sign {
            Some(sign) => sign,
            None => return Ok(read),
        };
        let (read, right) = beside(read, product(alloc, tokens, names, levels))?;
        left = joined(alloc, sign, read, right)?;
    }
    Err(endless(left))
}

/// Factors with `*` between them.
#[cycle(expr)]
#[tactic(auto, unfolding(crate::specs::Expr::product, crate::specs::Expr::linked))]
fn product(
    alloc: Global,
    tokens: &mut Tokens<'_>,
    names: &Names,
    levels: u32,
) -> Result<Expr, TextFault>
    ensures { Reads (λ a. a) (spec.product (spec.factor_of names.now levels) tokens.old) result tokens.new }
{
    let mut left = factor(alloc, tokens, names, levels)?;
    'signs: for _i in 0..tokens.turns() {
        let (read, sign) = beside(left, times(tokens))?;
        let sign = match sign {
            Some(sign) => sign,
            None => return Ok(read),
        };
        let (read, right) = beside(read, factor(alloc, tokens, names, levels))?;
        left = joined(alloc, sign, read, right)?;
    }
    Err(endless(left))
}

/// A number, a scalar, or an expression in brackets.
#[cycle(expr)]
fn factor(
    alloc: Global,
    tokens: &mut Tokens<'_>,
    names: &Names,
    levels: u32,
) -> Result<Expr, TextFault>
    ensures { Reads (λ a. a) (spec.factor_of names.now levels tokens.old) result tokens.new }
{
    let below = if levels == 0 { None } else { Some(levels - 1) };
    factor_in(alloc, tokens, names, below)
}

/// The same, with how many levels there are below it, if there may be one.
#[cycle(expr)]
#[tactic(auto, unfolding(crate::specs::Expr::factor_in))]
fn factor_in(
    alloc: Global,
    tokens: &mut Tokens<'_>,
    names: &Names,
    below: Option<u32>,
) -> Result<Expr, TextFault>
    ensures { Reads (λ a. a) (spec.factor_in names.now (option_map (spec.factor_of names.now) below) tokens.old) result tokens.new }
{
    let token = tokens.next()?;
    match token.kind {
        TokenKind::Number(v) => {
            tokens.node(token.place)?;
            Ok(Expr::Value(v))
        }
        TokenKind::Word => scalar(tokens, names, &token),
        TokenKind::Sign(Sign::Open) => bracketed(alloc, tokens, names, below, token.place),
        _ => Err(unexpected(token.place)),
    }
}

/// What stands after a `(`, which stands at this place, and the `)`.
#[cycle(expr)]
fn bracketed(
    alloc: Global,
    tokens: &mut Tokens<'_>,
    names: &Names,
    below: Option<u32>,
    place: u32,
) -> Result<Expr, TextFault>
    ensures { Reads (λ a. a) (spec.deeper place (option_map (spec.factor_of names.now) below) tokens.old) result tokens.new }
{
    let levels = match below {
        Some(levels) => levels,
        None => return Err(refused(place, TextKind::TooDeep)),
    };
    let inner = sum(alloc, tokens, names, levels)?;
    tokens.expect(Sign::Close).and(Ok(inner))
}

/// The scalar that a token names.
fn scalar(tokens: &mut Tokens<'_>, names: &Names, token: &Token<'_>) -> Result<Expr, TextFault>
    requires { IsText (lexeme token.now) }
    ensures { Does (λ a. a) (spec.scalar_factor names.now (lexeme token.now) tokens.old) result tokens.new }
{
    match named(names, token) {
        Ok(NameRef::Scalar(r)) => {
            tokens.node(token.place)?;
            Ok(Expr::Scalar(r))
        }
        Ok(NameRef::Location(_)) => Err(unexpected(token.place)),
        Err(kind) => Err(refused(token.place, kind)),
    }
}
