//! What holds of every text, by the definitions that the readers answer by. No function here does anything: its contract is
//! the law.

ghost use Rattle.pg_program_text.specs.Text.{HasOneReading};
ghost use Rattle.pg_program_text.specs.BodyLaws.{BodiesAreThreads, BodiesAreWhole, TextsSpeakOfNames};
ghost use Rattle.pg_program_text.specs.SpellingLaws.{ExpressionsStand, ThreadsStand};
ghost use Rattle.pg_program_text.specs.ReadAgain.{ThreadsAreReadAgain};

/// From a place of a text there is at most one body of a thread to read, and it ends at one place.
pub fn a_body_has_one_reading()
    ensures { HasOneReading }
{}

/// The statements of a body are a thread over the declared names, as `Program::build` asks for, and each of its points has a
/// note.
pub fn bodies_are_threads()
    ensures { BodiesAreThreads }
{}

/// Over names of the grammar a body is within the limits of a text, with the assertions that its notes stand for: its
/// expressions, brackets and blocks are, and each note.
pub fn bodies_are_whole()
    ensures { BodiesAreWhole }
{}

/// The notes of a body speak of declared names alone, and have no more nodes than a formula may.
pub fn texts_speak_of_names()
    ensures { TextsSpeakOfNames }
{}

/// The spelling of an expression is an expression of the grammar, and stands for that expression: where the declared names
/// are names of the grammar, each number is below 2^32, no more brackets are open at once than may be, and no word goes on
/// after it.
pub fn expressions_stand()
    ensures { ExpressionsStand }
{}

/// The canonical text of a thread is a body of the grammar, and stands for its statements and notes: where the declared names
/// are names of the grammar, and the limits of a text are kept.
pub fn threads_stand()
    ensures { ThreadsStand }
{}

/// A thread is read again at any place where its canonical text was printed, and nothing of that text but blanks is left.
pub fn threads_are_read_again()
    ensures { ThreadsAreReadAgain }
{}
