//! The commands. What is promised is which words are which command.

ghost use Rattle.std.specs.Prelude.{◌≡◌, ◌≤◌, IfSome, option_map, string_bytes};
ghost use Rattle.pg_app.specs.Command as spec;
ghost use Rattle.pg_app.specs.Number.{number_up_to, read_on, up_to};

use pg_judge::MAX_BUDGET;
use pg_made::MOST_STATEMENTS;

// The budget where none is given.
const DEFAULT_BUDGET: u32 = 100_000;

/// What the words ask for. This project's own.
#[derive(Clone, Copy)]
pub enum Command<'a> {
    /// To do work on the outline in a file.
    On { name: &'a str, work: Work<'a> },
    /// To judge the made outline with so many statements in each thread, under a budget of nodes.
    Made { statements: u32, budget: u32 },
}

/// What is done with the outline in a file. This project's own.
#[derive(Clone, Copy)]
pub enum Work<'a> {
    /// It is judged under a budget of nodes.
    Check { budget: u32 },
    /// Its obligations are printed.
    Obligations,
    /// It is judged under a budget of nodes, and its derivation is written.
    Derive { budget: u32 },
    /// The derivation in a second file is checked against it.
    Verify { derivation: &'a str },
    /// The schedule in a second file is replayed on it.
    Replay { schedule: &'a str },
}

/// The command that the words are, if they have one of the shapes `check NAME [BUDGET]`, `obligations NAME`, `derive NAME [BUDGET]`,
/// `verify NAME NAME`, `replay NAME NAME` and `made N [BUDGET]`. A name is not empty, a budget is a number from 1 to 1,000,000 in decimal digits without a leading zero, and N is one
/// from 1 to 15.
pub fn command_of(words: &[String]) -> Option<Command<'_>>
    ensures asked { option_map spec.asked result ≡ spec.command_of words.now }
    ensures budget { IfSome result spec.HasBudget }
{
    let [word, rest @ ..] = words else {
        return None;
    };
    match word.as_str() {
        "check" => check_of(rest),
        "obligations" => obligations_of(rest),
        "derive" => derive_of(rest),
        "verify" => verify_of(rest),
        "replay" => replay_of(rest),
        "made" => made_of(rest),
        _ => None,
    }
}

// `check`, with what is behind it.
fn check_of(words: &[String]) -> Option<Command<'_>>
    ensures asked { option_map spec.asked result ≡ spec.check_of words.now }
    ensures budget { IfSome result spec.HasBudget }
{
    let (name, budget) = name_and_budget(words)?;
    let work = Work::Check { budget };
    Some(Command::On { name, work })
}

// `obligations`, with what is behind it.
fn obligations_of(words: &[String]) -> Option<Command<'_>>
    ensures asked { option_map spec.asked result ≡ spec.obligations_of words.now }
    ensures budget { IfSome result spec.HasBudget }
{
    match words {
        [word] => Some(Command::On {
            name: name_in(word)?,
            work: Work::Obligations,
        }),
        _ => None,
    }
}

// `derive`, with what is behind it.
fn derive_of(words: &[String]) -> Option<Command<'_>>
    ensures asked { option_map spec.asked result ≡ spec.derive_of words.now }
    ensures budget { IfSome result spec.HasBudget }
{
    let (name, budget) = name_and_budget(words)?;
    let work = Work::Derive { budget };
    Some(Command::On { name, work })
}

// `verify`, with what is behind it.
fn verify_of(words: &[String]) -> Option<Command<'_>>
    ensures asked { option_map spec.asked result ≡ spec.verify_of words.now }
    ensures budget { IfSome result spec.HasBudget }
{
    let (name, derivation) = two_names(words)?;
    let work = Work::Verify { derivation };
    Some(Command::On { name, work })
}

// `replay`, with what is behind it.
fn replay_of(words: &[String]) -> Option<Command<'_>>
    ensures asked { option_map spec.asked result ≡ spec.replay_of words.now }
    ensures budget { IfSome result spec.HasBudget }
{
    let (name, schedule) = two_names(words)?;
    let work = Work::Replay { schedule };
    Some(Command::On { name, work })
}

// `made`, with what is behind it.
fn made_of(words: &[String]) -> Option<Command<'_>>
    ensures asked { option_map spec.asked result ≡ spec.made_of words.now }
    ensures budget { IfSome result spec.HasBudget }
{
    let (statements, budget) = number_and_budget(words)?;
    Some(Command::Made { statements, budget })
}

// A number of statements, and a budget, which may be left out.
fn number_and_budget(words: &[String]) -> Option<(u32, u32)>
    ensures said { result ≡ spec.number_and_budget words.now }
    ensures within { IfSome result (λ said. spec.IsStatements said.0 × spec.IsBudget said.1) }
{
    let [word, rest @ ..] = words else {
        return None;
    };
    let statements = number_of(word.as_str(), MOST_STATEMENTS)?;
    let budget = budget_in(rest)?;
    Some((statements, budget))
}

// A name and a budget, which may be left out.
fn name_and_budget(words: &[String]) -> Option<(&str, u32)>
    ensures said { option_map (λ said. (said.0.now, said.1)) result ≡ spec.name_and_budget words.now }
    ensures budget { IfSome result (λ said. spec.IsBudget said.1) }
{
    let [word, rest @ ..] = words else {
        return None;
    };
    let name = name_in(word)?;
    let budget = budget_in(rest)?;
    Some((name, budget))
}

// Two names.
fn two_names(words: &[String]) -> Option<(&str, &str)>
    ensures { option_map (λ said. (said.0.now, said.1.now)) result ≡ spec.two_names words.now }
{
    let [word, other] = words else {
        return None;
    };
    let name = name_in(word)?;
    let second = name_in(other)?;
    Some((name, second))
}

// A name, unless the word is empty.
fn name_in(word: &String) -> Option<&str>
    ensures { option_map (λ name. name.now) result ≡ spec.name_in (string_bytes word.now) }
{
    if word.is_empty() {
        return None;
    }
    Some(word.as_str())
}

// A budget, or the one that stands for none.
fn budget_in(words: &[String]) -> Option<u32>
    ensures given { result ≡ spec.budget_in words.now }
    ensures budget { IfSome result spec.IsBudget }
{
    match words {
        [] => Some(DEFAULT_BUDGET),
        [word] => number_of(word.as_str(), MAX_BUDGET),
        _ => None,
    }
}

// The number from 1 to `most` that a word is.
fn number_of(word: &str, most: u32) -> Option<u32>
    ensures number { result ≡ number_up_to most word.now }
    ensures within { IfSome result (λ n. (1 ≤ n) × (n ≤ most)) }
{
    let digits = word.as_bytes();
    match digits {
        [] | [b'0', ..] => None,
        _ => value_of(digits, most),
    }
}

// The number that digits are, if it is not above `most`.
fn value_of(digits: &[u8], most: u32) -> Option<u32>
    ensures { result ≡ up_to most (read_on 0 digits.now) }
{
    let mut value: u64 = 0;
    for digit in digits {
        if !digit.is_ascii_digit() {
            return None;
        }
        value = value * 10 + u64::from(*digit - b'0');
        if value > u64::from(most) {
            return None;
        }
    }
    Some(value as u32)
}
