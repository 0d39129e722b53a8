//! Formulas, read from their tokens. A bracket or a `!` opens a level; nothing else is read by recursion.

ghost use Rattle.std.specs.Prelude.{◌≡◌, option_map, map, IfOk};
ghost use Rattle.pg_assertion.specs.Formula.{plain};
ghost use Rattle.pg_lex.specs.Lex.{lexeme};
ghost use Rattle.pg_assertion_text.specs.Reading as spec;
ghost use Rattle.pg_assertion_text.specs.Input.{Does, Reads};

use crate::atoms::ReadAtom;
use crate::tokens::{Tokens, endless, is_sign, refused};
use pg_assertion::Formula;
use pg_lex::{Sign, TextFault, TextKind, Token, TokenKind};
use pg_program::{Names, beside};
use std::alloc::{AllocError, Global};

/// What a token begins.
#[derive(Clone, Copy)]
enum Opening {
    Negation,
    Bracket,
    Constant(bool),
    Atom,
}

/// What a token begins.
#[tactic(auto, unfolding(crate::specs::Reading::start))]
fn start(token: &Token<'_>) -> Opening
    ensures { result ≡ spec.start (lexeme token.now) }
{
    match token.kind {
        TokenKind::Sign(Sign::Not) => Opening::Negation,
        TokenKind::Sign(Sign::Open) => Opening::Bracket,
        TokenKind::Word if token.text == b"true".as_slice() => Opening::Constant(true),
        TokenKind::Word if token.text == b"false".as_slice() => Opening::Constant(false),
        _ => Opening::Atom,
    }
}

/// What begins here, and at which place. Its first token is taken unless it is an atom's, and is a node unless it is a `(`.
#[tactic(auto, unfolding(crate::specs::Reading::opened))]
fn opened(tokens: &mut Tokens<'_>) -> Result<(Opening, u32), TextFault>
    ensures { Does (λ o. o) (spec.opened tokens.old) result tokens.new }
{
    let token = tokens.peek()?;
    let opening = start(&token);
    match opening {
        Opening::Negation | Opening::Constant(_) => {
            tokens.node(token.place)?;
            let _taken = tokens.next()?;
            Ok((opening, token.place))
        }
        Opening::Bracket => {
            let _taken = tokens.next()?;
            Ok((opening, token.place))
        }
        Opening::Atom => Ok((opening, token.place)),
    }
}

/// `true` or `false`.
fn truth<T>(constant: bool) -> Formula<T>
    ensures { plain result ≡ spec.truth constant }
{
    if constant {
        Formula::True
    } else {
        Formula::False
    }
}

/// `f1 -> f2 -> .. -> last`, which groups to the right.
fn implied<T: Drop>(
    alloc: Global,
    mut premises: Vec<Formula<T>>,
    last: Formula<T>,
) -> Result<Formula<T>, AllocError>
    ensures { IfOk result (λ f. plain f ≡ spec.implied (map plain premises.items) (plain last)) }
{
    let mut whole = last;
    'premises: while let Some(premise) = premises.pop() {
        whole = Formula::implies(alloc, premise, whole)?;
    }
    Ok(whole)
}

/// A formula, in which so many brackets and `!` may be open at once. After a fault the tokens stand somewhere in it.
#[cycle(formula)]
#[tactic(auto, unfolding(crate::specs::Reading::formula_of, crate::specs::Reading::arrows))]
pub fn formula<T: ReadAtom>(
    alloc: Global,
    tokens: &mut Tokens<'_>,
    names: &Names,
    levels: u32,
) -> Result<Formula<T>, TextFault>
    ensures { Reads plain (spec.formula (T.read names.now) levels tokens.old) result tokens.new }
{
    let mut premises = Vec::new(alloc);
    'arrows: for _i in 0..tokens.turns() {
        let last = disjunction(alloc, tokens, names, levels)?;
        let (last, more) = beside(last, tokens.goes_on(Sign::Arrow))?;
        if !more {
            return Ok(implied(alloc, premises, last)?);
        }
        premises.push(last)?;
    }
    Err(refused(0, TextKind::TooMany))
}

/// Conjunctions with `|` between them.
#[cycle(formula)]
#[tactic(auto, unfolding(crate::specs::Reading::disjunction, crate::specs::Reading::chain))]
fn disjunction<T: ReadAtom>(
    alloc: Global,
    tokens: &mut Tokens<'_>,
    names: &Names,
    levels: u32,
) -> Result<Formula<T>, TextFault>
    ensures { Reads plain (spec.disjunction (spec.unary (T.read names.now) levels) tokens.old) result tokens.new }
{
    let mut left = conjunction(alloc, tokens, names, levels)?;
    'signs: for _i in 0..tokens.turns() {
        let (read, more) = beside(left, tokens.goes_on(Sign::Or))?;
        if !more {
            return Ok(read);
        }
        let (read, right) = beside(read, conjunction(alloc, tokens, names, levels))?;
        left = Formula::or(alloc, read, right)?;
    }
    Err(endless(left))
}

/// Operands with `&` between them.
#[cycle(formula)]
#[tactic(auto, unfolding(crate::specs::Reading::conjunction, crate::specs::Reading::chain))]
fn conjunction<T: ReadAtom>(
    alloc: Global,
    tokens: &mut Tokens<'_>,
    names: &Names,
    levels: u32,
) -> Result<Formula<T>, TextFault>
    ensures { Reads plain (spec.conjunction (spec.unary (T.read names.now) levels) tokens.old) result tokens.new }
{
    let mut left = unary(alloc, tokens, names, levels)?;
    'signs: for _i in 0..tokens.turns() {
        let (read, more) = beside(left, tokens.goes_on(Sign::And))?;
        if !more {
            return Ok(read);
        }
        let (read, right) = beside(read, unary(alloc, tokens, names, levels))?;
        left = Formula::and(alloc, read, right)?;
    }
    Err(endless(left))
}

/// What `!` may stand in front of.
#[cycle(formula)]
fn unary<T: ReadAtom>(
    alloc: Global,
    tokens: &mut Tokens<'_>,
    names: &Names,
    levels: u32,
) -> Result<Formula<T>, TextFault>
    ensures { Reads plain (spec.unary (T.read names.now) levels tokens.old) result tokens.new }
{
    let below = if levels == 0 { None } else { Some(levels - 1) };
    operand(alloc, tokens, names, below)
}

/// The same, with how many levels there are below it, if there may be one.
#[cycle(formula)]
fn operand<T: ReadAtom>(
    alloc: Global,
    tokens: &mut Tokens<'_>,
    names: &Names,
    below: Option<u32>,
) -> Result<Formula<T>, TextFault>
    ensures { Reads plain (spec.operand (T.read names.now) (option_map (spec.unary (T.read names.now)) below) tokens.old) result tokens.new }
{
    let (opening, place) = opened(tokens)?;
    match opening {
        Opening::Negation => negation(alloc, tokens, names, below, place),
        Opening::Bracket => bracketed(alloc, tokens, names, below, place),
        Opening::Constant(constant) => Ok(truth(constant)),
        Opening::Atom => Ok(Formula::Atom(T::read(tokens, names)?)),
    }
}

/// What follows a `!`, which stands at this place.
#[cycle(formula)]
fn negation<T: ReadAtom>(
    alloc: Global,
    tokens: &mut Tokens<'_>,
    names: &Names,
    below: Option<u32>,
    place: u32,
) -> Result<Formula<T>, TextFault>
    ensures { Reads plain (spec.deeper place (option_map (spec.unary (T.read names.now)) below) spec.negated tokens.old) result tokens.new }
{
    let levels = match below {
        Some(levels) => levels,
        None => return Err(refused(place, TextKind::TooDeep)),
    };
    let f = unary(alloc, tokens, names, levels)?;
    Ok(Formula::not(alloc, f)?)
}

/// What follows a `(`, which stands at this place, and the `)`.
#[cycle(formula)]
fn bracketed<T: ReadAtom>(
    alloc: Global,
    tokens: &mut Tokens<'_>,
    names: &Names,
    below: Option<u32>,
    place: u32,
) -> Result<Formula<T>, TextFault>
    ensures { Reads plain (spec.deeper place (option_map (spec.unary (T.read names.now)) below) spec.bracketed tokens.old) result tokens.new }
{
    let levels = match below {
        Some(levels) => levels,
        None => return Err(refused(place, TextKind::TooDeep)),
    };
    let f = formula(alloc, tokens, names, levels)?;
    tokens.expect(Sign::Close).and(Ok(f))
}
