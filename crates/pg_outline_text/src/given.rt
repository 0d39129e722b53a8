//! The precondition and the crash formula, read from their tokens.

ghost use Rattle.pg_assertion.specs.Formula.{plain};
ghost use Rattle.pg_assertion_text.specs.Input.{Reads};
ghost use Rattle.pg_assertion_text.specs.Atoms.{raw_atom, crash_atom};
ghost use Rattle.pg_outline_text.specs.Reading as spec;

use crate::word::{Keyword, is_keyword};
use pg_assertion::{CrashAtom, Formula, RawAtom};
use pg_assertion_text::{Tokens, parse_crash, parse_formula};
use pg_lex::{Sign, TextFault};
use pg_program::{Names, beside};
use std::alloc::Global;

/// A formula of an assertion, and the semicolon after it.
fn given_formula(
    alloc: Global,
    tokens: &mut Tokens<'_>,
    names: &Names,
) -> Result<Formula<RawAtom>, TextFault>
    ensures { Reads plain (spec.given raw_atom names.now tokens.old) result tokens.new }
{
    let mut lexer = tokens.lexer();
    let f = parse_formula(alloc, &mut lexer, names)?;
    tokens.go_to(&lexer);
    let (f, _semicolon) = beside(f, tokens.expect(Sign::Semicolon))?;
    Ok(f)
}

/// A crash formula, and the semicolon after it.
fn given_crash(
    alloc: Global,
    tokens: &mut Tokens<'_>,
    names: &Names,
) -> Result<Formula<CrashAtom>, TextFault>
    ensures { Reads plain (spec.given crash_atom names.now tokens.old) result tokens.new }
{
    let mut lexer = tokens.lexer();
    let f = parse_crash(alloc, &mut lexer, names)?;
    tokens.go_to(&lexer);
    let (f, _semicolon) = beside(f, tokens.expect(Sign::Semicolon))?;
    Ok(f)
}

/// The precondition, which is `true` where it is left out.
#[tactic(auto, unfolding(crate::specs::Reading::precondition))]
pub fn precondition(
    alloc: Global,
    tokens: &mut Tokens<'_>,
    names: &Names,
) -> Result<Formula<RawAtom>, TextFault>
    ensures { Reads plain (spec.precondition names.now tokens.old) result tokens.new }
{
    let token = tokens.peek()?;
    if is_keyword(Keyword::Pre, &token) {
        let _taken = tokens.next()?;
        given_formula(alloc, tokens, names)
    } else {
        Ok(Formula::True)
    }
}

/// The crash formula, which is `true` where it is left out.
#[tactic(auto, unfolding(crate::specs::Reading::crash_formula))]
pub fn crash_formula(
    alloc: Global,
    tokens: &mut Tokens<'_>,
    names: &Names,
) -> Result<Formula<CrashAtom>, TextFault>
    ensures { Reads plain (spec.crash_formula names.now tokens.old) result tokens.new }
{
    let token = tokens.peek()?;
    if is_keyword(Keyword::Crash, &token) {
        let _taken = tokens.next()?;
        given_crash(alloc, tokens, names)
    } else {
        Ok(Formula::True)
    }
}
