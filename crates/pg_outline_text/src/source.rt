//! The text of an outline after its version, read from its tokens.

ghost use Rattle.std.specs.Prelude.{◌≡◌};
ghost use Rattle.pg_assertion_text.specs.Input.{Does, Reads};
ghost use Rattle.pg_outline_text.specs.Parts.{as_source};
ghost use Rattle.pg_outline_text.specs.Reading as spec;

use crate::declaration::{declarations, last_number};
use crate::given::{crash_formula, precondition};
use crate::thread::threads;
use crate::word::{Keyword, expect_word};
use pg_assertion::{CrashAtom, Formula, RawAtom};
use pg_assertion_text::Tokens;
use pg_lex::{Sign, TextFault};
use pg_program::{Names, beside};
use pg_program_text::ThreadText;
use std::alloc::Global;

/// The version that this reader knows.
pub const VERSION: u32 = 1;

/// What a text is read as: the names, the formulas that stand before the threads, and the threads.
#[derive(Drop)]
pub struct Source {
    pub names: Names,
    pub pre: Formula<RawAtom>,
    pub crash: Formula<CrashAtom>,
    pub threads: Vec<ThreadText>,
}

/// The version of a text.
#[tactic(auto, unfolding(crate::specs::Reading::version))]
pub fn version(tokens: &mut Tokens<'_>) -> Result<u32, TextFault>
    ensures { Does (λ n. n) (spec.version tokens.old) result tokens.new }
{
    expect_word(tokens, Keyword::Pierogi)?;
    tokens.number()
}

/// The size of the domain.
#[tactic(auto, unfolding(crate::specs::Reading::domain))]
fn domain(tokens: &mut Tokens<'_>) -> Result<u32, TextFault>
    ensures { Does (λ n. n) (spec.domain tokens.old) result tokens.new }
{
    expect_word(tokens, Keyword::Values)?;
    last_number(tokens)
}

/// What stands after the declarations of these names.
#[tactic(auto, unfolding(crate::specs::Reading::outline_over))]
fn source_over(alloc: Global, tokens: &mut Tokens<'_>, names: Names) -> Result<Source, TextFault>
    ensures { Reads as_source (spec.outline_over names tokens.old) result tokens.new }
{
    let pre = precondition(alloc, tokens, &names);
    let (names, pre) = beside(names, pre)?;
    let crash = crash_formula(alloc, tokens, &names);
    let ((names, pre), crash) = beside((names, pre), crash)?;
    let threads = threads(alloc, tokens, &names);
    let (((names, pre), crash), threads) = beside(((names, pre), crash), threads)?;
    Ok(Source {
        names,
        pre,
        crash,
        threads,
    })
}

/// What stands after the version.
#[tactic(auto, unfolding(crate::specs::Reading::outline))]
pub fn behind_version(alloc: Global, tokens: &mut Tokens<'_>) -> Result<Source, TextFault>
    ensures { Reads as_source (spec.outline tokens.old) result tokens.new }
{
    tokens.expect(Sign::Semicolon)?;
    let domain = domain(tokens)?;
    let mut names = Names::make(alloc, domain, VERSION);
    declarations(tokens, &mut names)?;
    source_over(alloc, tokens, names)
}
