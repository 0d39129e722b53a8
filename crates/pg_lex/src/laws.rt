//! What holds of each cursor of each text, by the definitions that `next` and `peek` answer by. No
//! function here does anything: its contract is the law.

ghost use Rattle.pg_lex.specs.Laws.{MunchesMost, TokensSplitText, FaultsAreExact, TokensShortenRest, EndStays, GrammarIsRead};

/// A token's text is the longest prefix of its class of what stands after the blanks and
/// comments: a word, the digits of its value, one letter, or the longest sign. `End` has none.
pub fn tokens_are_longest()
    ensures { MunchesMost }
{}

/// In front of a token there are blanks and comments alone, and no byte of the text is lost: it is
/// that gap, the token's text and what stands after the lexer then. Places count its bytes.
pub fn tokens_split_the_text()
    ensures { TokensSplitText }
{}

/// A fault stands after blanks and comments alone, where no token begins or one exceeds a limit.
pub fn faults_are_exact()
    ensures { FaultsAreExact }
{}

/// Each token but `End` leaves a shorter text, so that a reader ends.
pub fn tokens_shorten_the_rest()
    ensures { TokensShortenRest }
{}

/// `End` is at the text's length, and comes again and again.
pub fn the_end_stays()
    ensures { EndStays }
{}

/// What the grammar has at a place is read there: the laws above leave no second answer.
pub fn the_grammar_is_read()
    ensures { GrammarIsRead }
{}
