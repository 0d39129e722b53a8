//! What clauses are given to, where a test asks how many they are, and which.

use pg_cases::agree;
use pg_region::{ClauseRange, Full, Lit, Region};
use std::alloc::{AllocError, Global};
use std::test::Fail;

/// Passes where a region of this size answers so, and has so many clauses then.
fn ends<F: Fn(&mut Region) -> Result<(), Full>>(
    alloc: Global,
    size: (u32, u32),
    gives: &F,
    wanted: (Result<(), Full>, u32),
    text: &[u8],
) -> Result<(), Fail>
    requires { F.IsAlwaysCallable gives.now }
{
    let mut region = Region::make(alloc, size.0, size.1)?;
    let answer = gives(&mut region);
    agree((answer, region.clauses()), wanted, text)
}

/// Passes where what is given fills a region of so many words and spans, and one of a word or of a span less is full before the last
/// clause.
pub fn fills<F: Fn(&mut Region) -> Result<(), Full> + Drop>(
    alloc: Global,
    size: (u32, u32),
    gives: F,
    text: &[u8],
) -> Result<(), Fail>
    requires { F.IsAlwaysCallable gives }
{
    let (words, spans) = size;
    if words < 1 || spans < 1 {
        return Err(Fail::new("nothing is wanted"));
    }
    let full = (Err(Full), spans - 1);
    ends(alloc, size, &gives, (Ok(()), spans), text)?;
    ends(alloc, (words - 1, spans), &gives, full, text)?;
    ends(alloc, (words, spans - 1), &gives, full, text)
}

/// Writes a clause by its numbers behind a text.
fn write(alloc: Global, text: &mut String, clause: &[Lit]) -> Result<(), AllocError> {
    let mut between = "";
    for literal in clause {
        let sign = if literal.positive() { "" } else { "-" };
        text.push_str(&format!(in alloc; "{between}{sign}{}", literal.atom())?)?;
        between = " ";
    }
    text.push_str("; ")
}

/// Writes so many clauses of a region that stand behind so many others.
fn write_all(
    alloc: Global,
    text: &mut String,
    region: &Region,
    at: (u32, u32),
) -> Result<(), AllocError> {
    let (behind, count) = at;
    let clauses = region.clauses();
    let range = ClauseRange {
        top_from: 0,
        top_to: clauses,
        rules_from: 0,
        rules_to: 0,
        axioms_from: 0,
        axioms_to: 0,
    };
    let to = behind.saturating_add(count).min(clauses);
    for k in behind..to {
        write(alloc, text, range.clause(region, k + 1))?;
    }
    Ok(())
}

/// Passes where these clauses of a region, so many behind so many others, are the ones that are wanted.
fn is(alloc: Global, region: &Region, at: (u32, u32), wanted: &str) -> Result<(), Fail> {
    let mut text = String::new(alloc);
    write_all(alloc, &mut text, region, at)?;
    agree(text.as_str(), wanted, b"clauses")
}

/// Passes where what is given has these clauses, so many behind so many others.
pub fn has<F: Fn(&mut Region) -> Result<(), Full> + Drop>(
    alloc: Global,
    gives: F,
    at: (u32, u32),
    wanted: &str,
) -> Result<(), Fail>
    requires { F.IsAlwaysCallable gives }
{
    let mut region = Region::make(alloc, 200, 100)?;
    agree(gives(&mut region), Ok(()), b"a region")?;
    is(alloc, &region, at, wanted)
}
