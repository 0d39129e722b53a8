//! The parts of a statement, read from their tokens, but for the blocks of branches and loops.

ghost use Rattle.std.specs.Prelude.{◌≡◌, ◌<◌, length, []};
ghost use Rattle.pg_program.specs.NameTable.{is_auxiliary};
ghost use Rattle.pg_assertion_text.specs.Input.{named as spec_named};
ghost use Rattle.pg_lex.specs.Lex.{lexeme};
ghost use Rattle.pg_assertion.specs.Formula.{plain};
ghost use Rattle.pg_assertion_text.specs.Input.{Does, Reads};
ghost use Rattle.pg_assertion_text.specs.Words.{IsText};
ghost use Rattle.pg_program_text.specs.Limits.{most_assignments};
ghost use Rattle.pg_program_text.specs.Limits.{text_limits};
ghost use Rattle.pg_program_text.specs.Stmt as spec;

use crate::expr::sum;
use crate::keyword::{Keyword, keyword_at};
use pg_assertion::{Formula, RawAtom};
use pg_assertion_text::tokens::{is_sign, named, refused, unexpected};
use pg_assertion_text::{Tokens, parse_formula};
use pg_lex::{Sign, TextFault, TextKind, Token};
use pg_program::{Act, AuxAssign, Cond, Expr, NameKind, NameRef, Names, beside};
use sqlite_items::Items;
use std::alloc::Global;

/// How many nodes an expression may have: each number, name and sign is one.
pub const MAX_EXPR_NODES: u32 = 32;

/// How many brackets of an expression may be open at once.
pub const MAX_EXPR_OPEN: u32 = 32;

/// How many assignments the bracket of a statement may have.
pub const MAX_ASSIGNMENTS: u32 = 4;

/// An expression.
#[tactic(auto, unfolding(crate::specs::Stmt::expression))]
pub fn expression(alloc: Global, tokens: &mut Tokens<'_>, names: &Names) -> Result<Expr, TextFault>
    ensures { Reads (λ a. a) (spec.expression text_limits names.now tokens.old) result tokens.new }
{
    let mut inner = Tokens::new(&tokens.lexer(), MAX_EXPR_NODES);
    let expr = sum(alloc, &mut inner, names, MAX_EXPR_OPEN)?;
    tokens.go_to(&inner.lexer());
    Ok(expr)
}

/// A formula.
#[tactic(auto, unfolding(crate::specs::Stmt::formula))]
fn formula(
    alloc: Global,
    tokens: &mut Tokens<'_>,
    names: &Names,
) -> Result<Formula<RawAtom>, TextFault>
    ensures { Reads plain (spec.formula text_limits names.now tokens.old) result tokens.new }
{
    let mut lexer = tokens.lexer();
    let f = parse_formula(alloc, &mut lexer, names)?;
    tokens.go_to(&lexer);
    Ok(f)
}

/// The `[` of a note, which takes a point.
#[tactic(auto, unfolding(crate::specs::Stmt::opened))]
fn opened(tokens: &mut Tokens<'_>) -> Result<(), TextFault>
    ensures { Does (λ u. u) (spec.opened tokens.old) result tokens.new }
{
    let token = tokens.next()?;
    if is_sign(Sign::OpenSquare, token.kind) {
        tokens.node(token.place)
    } else {
        Err(unexpected(token.place))
    }
}

/// `[ formula ]`, the note of a point.
#[tactic(auto, unfolding(crate::specs::Stmt::note))]
pub fn note(
    alloc: Global,
    tokens: &mut Tokens<'_>,
    names: &Names,
) -> Result<Formula<RawAtom>, TextFault>
    ensures { Reads plain (spec.note text_limits names.now tokens.old) result tokens.new }
{
    opened(tokens)?;
    let f = formula(alloc, tokens, names)?;
    tokens.expect(Sign::CloseSquare).and(Ok(f))
}

/// Whether a token is `=` or `!=`, and a test is for equality.
fn equality(token: &Token<'_>) -> Result<bool, TextFault>
    ensures { spec.equal_at (lexeme token.now) ≡ result }
{
    if is_sign(Sign::Equal, token.kind) {
        Ok(true)
    } else if is_sign(Sign::NotEqual, token.kind) {
        Ok(false)
    } else {
        Err(unexpected(token.place))
    }
}

/// `=` or `!=`: whether a test is for equality.
#[tactic(auto, unfolding(crate::specs::Stmt::test_sign))]
fn test_sign(tokens: &mut Tokens<'_>) -> Result<bool, TextFault>
    ensures { Does (λ b. b) (spec.test_sign tokens.old) result tokens.new }
{
    let token = tokens.next()?;
    equality(&token)
}

/// A test.
#[tactic(auto, unfolding(crate::specs::Stmt::a_test))]
pub fn test(alloc: Global, tokens: &mut Tokens<'_>, names: &Names) -> Result<Cond, TextFault>
    ensures { Reads (λ c. c) (spec.a_test text_limits names.now tokens.old) result tokens.new }
{
    let left = expression(alloc, tokens, names)?;
    let (left, equal) = beside(left, test_sign(tokens))?;
    let (left, right) = beside(left, expression(alloc, tokens, names))?;
    Ok(Cond { left, right, equal })
}

/// `, expr`
#[tactic(auto, unfolding(crate::specs::Stmt::operand))]
fn operand(alloc: Global, tokens: &mut Tokens<'_>, names: &Names) -> Result<Expr, TextFault>
    ensures { Reads (λ a. a) (spec.operand text_limits names.now tokens.old) result tokens.new }
{
    tokens.expect(Sign::Comma)?;
    expression(alloc, tokens, names)
}

/// `, expr )`
#[tactic(auto, unfolding(crate::specs::Stmt::last_operand))]
fn last_operand(alloc: Global, tokens: &mut Tokens<'_>, names: &Names) -> Result<Expr, TextFault>
    ensures { Reads (λ a. a) (spec.last_operand text_limits names.now tokens.old) result tokens.new }
{
    let expr = operand(alloc, tokens, names)?;
    tokens.expect(Sign::Close).and(Ok(expr))
}

/// `( x , expected , desired )`, after `r := cas`.
#[tactic(auto, unfolding(crate::specs::Stmt::swap))]
fn swap(alloc: Global, tokens: &mut Tokens<'_>, names: &Names, target: u8) -> Result<Act, TextFault>
    ensures { Reads (λ a. a) (spec.swap text_limits names.now target tokens.old) result tokens.new }
{
    tokens.expect(Sign::Open)?;
    let location = tokens.location(names)?;
    let expected = operand(alloc, tokens, names)?;
    let (expected, desired) = beside(expected, last_operand(alloc, tokens, names))?;
    Ok(Act::Cas {
        target,
        location,
        expected,
        desired,
    })
}

/// What stands after `r :=`.
#[tactic(auto, unfolding(crate::specs::Stmt::assigned))]
fn assigned(
    alloc: Global,
    tokens: &mut Tokens<'_>,
    names: &Names,
    target: u8,
) -> Result<Act, TextFault>
    ensures { Reads (λ a. a) (spec.assigned text_limits names.now target tokens.old) result tokens.new }
{
    let token = tokens.peek()?;
    if let Some(Keyword::Cas) = keyword_at(&token) {
        let _taken = tokens.next()?;
        return swap(alloc, tokens, names, target);
    }
    if let Ok(NameRef::Location(location)) = named(names, &token) {
        let _taken = tokens.next()?;
        return Ok(Act::Load { target, location });
    }
    let expr = expression(alloc, tokens, names)?;
    Ok(Act::Assign { target, expr })
}

/// What stands after a name that begins a statement.
fn to_name(
    alloc: Global,
    tokens: &mut Tokens<'_>,
    names: &Names,
    name: NameRef,
) -> Result<Act, TextFault>
    ensures { Reads (λ a. a) (spec.to_name text_limits names.now name tokens.old) result tokens.new }
{
    tokens.expect(Sign::Assign)?;
    match name {
        NameRef::Scalar(target) => assigned(alloc, tokens, names, target),
        NameRef::Location(location) => {
            let expr = expression(alloc, tokens, names)?;
            Ok(Act::Store { location, expr })
        }
    }
}

/// What a statement does, but for a branch or a loop.
#[tactic(auto, unfolding(crate::specs::Stmt::an_act))]
pub fn act(alloc: Global, tokens: &mut Tokens<'_>, names: &Names) -> Result<Act, TextFault>
    ensures { Reads (λ a. a) (spec.an_act text_limits names.now tokens.old) result tokens.new }
{
    let token = tokens.next()?;
    match keyword_at(&token) {
        Some(Keyword::Mfence) => Ok(Act::Mfence),
        Some(Keyword::Sfence) => Ok(Act::Sfence),
        Some(Keyword::Flush) => {
            let location = tokens.location(names)?;
            Ok(Act::Flush { location })
        }
        Some(Keyword::Flushopt) => {
            let location = tokens.location(names)?;
            Ok(Act::Flushopt { location })
        }
        _ => named_act(alloc, tokens, names, &token),
    }
}

/// What a statement does that begins with a name.
fn named_act(
    alloc: Global,
    tokens: &mut Tokens<'_>,
    names: &Names,
    token: &Token<'_>,
) -> Result<Act, TextFault>
    requires { IsText (lexeme token.now) }
    ensures { Reads (λ a. a) (spec.named_act text_limits names.now (lexeme token.now) tokens.old) result tokens.new }
{
    match named(names, token) {
        Ok(name) => to_name(alloc, tokens, names, name),
        Err(kind) => Err(refused(token.place, kind)),
    }
}

/// Whether a scalar is an auxiliary.
fn is_auxiliary(names: &Names, r: u8) -> bool
    requires { r < length names.now.scalars }
    ensures { result ≡ is_auxiliary names.now r }
{
    matches!(names.kind(r), NameKind::Auxiliary)
}

/// The auxiliary that a token names, or why it can't stand as a target.
fn auxiliary(names: &Names, token: &Token<'_>) -> Result<u8, TextKind>
    requires { IsText (lexeme token.now) }
    ensures { result ≡ spec.auxiliary_in names.now (spec_named names.now (lexeme token.now)) }
{
    match named(names, token) {
        Ok(NameRef::Scalar(r)) => {
            if is_auxiliary(names, r) {
                Ok(r)
            } else {
                Err(TextKind::Unexpected)
            }
        }
        Ok(NameRef::Location(_)) => Err(TextKind::Unexpected),
        Err(kind) => Err(kind),
    }
}

/// `a := expr`, where so many assignments may come.
#[tactic(auto, unfolding(crate::specs::Stmt::assignment))]
fn assignment(
    alloc: Global,
    tokens: &mut Tokens<'_>,
    names: &Names,
    room: u32,
) -> Result<AuxAssign, TextFault>
    ensures { Reads (λ a. a) (spec.assignment text_limits names.now room tokens.old) result tokens.new }
{
    let token = tokens.next()?;
    let target = match auxiliary(names, &token) {
        Ok(target) => target,
        Err(kind) => return Err(refused(token.place, kind)),
    };
    if room == 0 {
        return Err(refused(token.place, TextKind::TooMany));
    }
    tokens.expect(Sign::Assign)?;
    let expr = expression(alloc, tokens, names)?;
    Ok(AuxAssign { target, expr })
}

/// Whether the bracket goes on, by a comma, or ends.
#[tactic(auto, unfolding(crate::specs::Stmt::separator))]
fn separator(tokens: &mut Tokens<'_>) -> Result<bool, TextFault>
    ensures { Does (λ b. b) (spec.separator tokens.old) result tokens.new }
{
    let token = tokens.next()?;
    if is_sign(Sign::Comma, token.kind) {
        Ok(true)
    } else if is_sign(Sign::Greater, token.kind) {
        Ok(false)
    } else {
        Err(unexpected(token.place))
    }
}

/// The assignments of a bracket, after its `<`.
fn assignments(
    alloc: Global,
    tokens: &mut Tokens<'_>,
    names: &Names,
) -> Result<Items<AuxAssign>, TextFault>
    ensures { Reads (λ a. a) (spec.assignments_on text_limits names.now most_assignments [] tokens.old) result tokens.new }
{
    let mut found = Items::new(alloc);
    'assignments: for i in 0..MAX_ASSIGNMENTS {
        let next = assignment(alloc, tokens, names, MAX_ASSIGNMENTS - i)?;
        found.push(next)?;
        if !separator(tokens)? {
            return Ok(found);
        }
    }
    found.push(assignment(alloc, tokens, names, 0)?)?;
    Ok(found)
}

/// `< a := expr, .. >`, or nothing.
#[tactic(auto, unfolding(crate::specs::Stmt::bracket))]
pub fn bracket(
    alloc: Global,
    tokens: &mut Tokens<'_>,
    names: &Names,
) -> Result<Items<AuxAssign>, TextFault>
    ensures { Reads (λ a. a) (spec.bracket text_limits names.now tokens.old) result tokens.new }
{
    let token = tokens.peek()?;
    if !is_sign(Sign::Less, token.kind) {
        return Ok(Items::new(alloc));
    }
    let _taken = tokens.next()?;
    assignments(alloc, tokens, names)
}
