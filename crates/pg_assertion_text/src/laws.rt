//! What holds of every text, by the definitions that the readers answer by. No function here does anything: its
//! contract is the law.

ghost use Rattle.pg_assertion_text.specs.Parsing.{HasOneReading};
ghost use Rattle.pg_assertion_text.specs.SpellingLaws.{SpellingStands, CrashSpellingStands};
ghost use Rattle.pg_assertion_text.specs.ReadAgain.{FormulasAreReadAgain, CrashFormulasAreReadAgain};
ghost use Rattle.pg_assertion_text.specs.Within.{FormulasAreWithin, CrashFormulasAreWithin, AssertionsAreWithin};

use crate::atoms::ReadAtom;

/// From a place of a text there is at most one formula to read, and it ends at one place.
pub fn a_formula_has_one_reading<T: ReadAtom>()
    ensures { HasOneReading T.stands }
{
    T::agrees();
}

/// The spelling of an assertion is a formula of the grammar, and stands for that assertion: where the declared names are
/// names of the grammar, each number is below 2^32, no more brackets and `!` are open at once than may be, and no word
/// goes on with it.
pub fn spelling_stands()
    ensures { SpellingStands }
{}

/// The same for a crash formula.
pub fn crash_spelling_stands()
    ensures { CrashSpellingStands }
{}

/// The formula of an assertion is read again at any place where it was printed.
pub fn formulas_are_read_again()
    ensures { FormulasAreReadAgain }
{}

/// A crash formula is read again at any place where it was printed.
pub fn crash_formulas_are_read_again()
    ensures { CrashFormulasAreReadAgain }
{}

/// Each formula of an assertion that stands in a text is within the limits of a text: its names are declared, its numbers
/// are below 2^32, it has few nodes, and its canonical spelling opens no more brackets and `!` at once than may be.
pub fn formulas_are_within()
    ensures { FormulasAreWithin }
{}

/// The same for a crash formula.
pub fn crash_formulas_are_within()
    ensures { CrashFormulasAreWithin }
{}

/// An assertion is within these limits where its formula, as a text has it, is.
pub fn assertions_are_within()
    ensures { AssertionsAreWithin }
{}
