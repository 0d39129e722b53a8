//! A place in a text, with how many nodes may still come: what the readers of phrases move along.

ghost use Rattle.std.specs.Prelude.{◌≡◌, ◌+◌, IfOk};
ghost use Rattle.pg_assertion_text.specs.Input as spec;
ghost use Rattle.pg_assertion_text.specs.Input.{Does, Input};
ghost use Rattle.pg_assertion_text.specs.Words.{is_reserved, IsText};
ghost use Rattle.pg_lex.specs.Lex.{lexeme};

use pg_lex::{Lexer, Sign, TextFault, TextKind, Token, TokenKind};
use pg_program::{NameRef, Names};
use std::marker::Model;

/// The words that are no names.
const RESERVED: [&str; 19] = [
    "pierogi",
    "values",
    "location",
    "register",
    "of",
    "auxiliary",
    "pre",
    "crash",
    "thread",
    "if",
    "else",
    "while",
    "mfence",
    "sfence",
    "flush",
    "flushopt",
    "cas",
    "true",
    "false",
];

/// Whether a word is no name.
#[tactic(auto, unfolding(crate::specs::Words::is_reserved))]
pub fn is_reserved(word: &str) -> bool
    ensures { result ≡ is_reserved word.now }
{
    RESERVED.contains(&word)
}

/// Reads tokens one by one. Contracts see it as an `Input`.
///
/// A fault of `peek`, `next`, `node` or `goes_on` leaves the tokens where they stood; after one of `expect`, `number` or
/// `location` they may stand after the token that is refused. No clause says so: who reads on after a fault goes back
/// first (`go_to`).
#[derive(Drop)]
pub struct Tokens<'a> {
    lexer: Lexer<'a>,
    room: u32,
}

impl<'a> Model for Tokens<'a> {
    ghost use Rattle.pg_assertion_text.specs.Input.{Input, input_code};

    ghost Value = { Input };

    ghost coded = { input_code };

    ghost view = { λ t. record { cursor = t.lexer; room = t.room } };
}

impl<'a> Tokens<'a> {
    /// At the lexer's place, for a phrase of at most `room` nodes.
    pub fn new(lexer: &Lexer<'a>, room: u32) -> Tokens<'a>
        ensures { result ≡ record { cursor = lexer.now; room = room } }
    {
        Tokens {
            lexer: lexer.fork(),
            room,
        }
    }

    /// A lexer at the place after what was read.
    pub fn lexer(&self) -> Lexer<'a>
        ensures { result ≡ self.now.cursor }
    {
        self.lexer.fork()
    }

    /// Goes on at this lexer's place.
    pub fn go_to(&mut self, lexer: &Lexer<'a>)
        ensures { self.new ≡ record self.old { cursor = lexer.now } }
    {
        self.lexer = lexer.fork();
    }

    /// How many turns a chain of nodes takes at most: each turn but the last takes a node.
    pub fn turns(&self) -> u64
        ensures { result ≡ self.now.room + 1 }
    {
        u64::from(self.room) + 1
    }

    /// The next token, which stays.
    #[tactic(auto, unfolding(crate::specs::Input::peek))]
    pub fn peek(&self) -> Result<Token<'a>, TextFault>
        ensures token { Does lexeme (spec.peek self.now) result self.now }
        ensures text { IfOk result (λ t. IsText (lexeme t)) }
    {
        self.lexer.peek()
    }

    /// The next token, which is taken.
    #[tactic(auto, unfolding(crate::specs::Input::next))]
    pub fn next(&mut self) -> Result<Token<'a>, TextFault>
        ensures token { Does lexeme (spec.next self.old) result self.new }
        ensures text { IfOk result (λ t. IsText (lexeme t)) }
    {
        self.lexer.next()
    }

    /// One more node, whose token is at this place.
    #[tactic(auto, unfolding(crate::specs::Input::node))]
    pub fn node(&mut self, place: u32) -> Result<(), TextFault>
        ensures { Does (λ u. u) (spec.node place self.old) result self.new }
    {
        if self.room == 0 {
            return Err(TextFault::At {
                place,
                kind: TextKind::TooMany,
            });
        }
        self.room -= 1;
        Ok(())
    }

    /// Whether the phrase goes on with this sign, which then is taken and is a node.
    #[tactic(auto, unfolding(crate::specs::Input::goes_on))]
    pub fn goes_on(&mut self, sign: Sign) -> Result<bool, TextFault>
        ensures { Does (λ b. b) (spec.goes_on sign self.old) result self.new }
    {
        let token = self.peek()?;
        if is_sign(sign, token.kind) {
            self.node(token.place)?;
            let _taken = self.next()?;
            Ok(true)
        } else {
            Ok(false)
        }
    }

    /// Takes a sign that has to come. A fault may have taken another token.
    #[tactic(auto, unfolding(crate::specs::Input::expect))]
    pub fn expect(&mut self, sign: Sign) -> Result<(), TextFault>
        ensures { Does (λ u. u) (spec.expect sign self.old) result self.new }
    {
        let token = self.next()?;
        if is_sign(sign, token.kind) {
            Ok(())
        } else {
            Err(unexpected(token.place))
        }
    }

    /// Takes a number. A fault may have taken another token.
    #[tactic(auto, unfolding(crate::specs::Input::number))]
    pub fn number(&mut self) -> Result<u32, TextFault>
        ensures { Does (λ n. n) (spec.number self.old) result self.new }
    {
        let token = self.next()?;
        match token.kind {
            TokenKind::Number(n) => Ok(n),
            _ => Err(unexpected(token.place)),
        }
    }

    /// Takes the name of a location. A fault may have taken another token.
    #[tactic(auto, unfolding(crate::specs::Input::location))]
    pub fn location(&mut self, names: &Names) -> Result<u8, TextFault>
        ensures { Does (λ n. n) (spec.location names.now self.old) result self.new }
    {
        let token = self.next()?;
        match named(names, &token) {
            Ok(NameRef::Location(x)) => Ok(x),
            Ok(NameRef::Scalar(_)) => Err(unexpected(token.place)),
            Err(kind) => Err(refused(token.place, kind)),
        }
    }
}

/// Whether a token is this sign.
pub fn is_sign(sign: Sign, kind: TokenKind) -> bool
    ensures { result ≡ spec.is_sign sign kind }
{
    match kind {
        TokenKind::Sign(s) => s == sign,
        _ => false,
    }
}

/// The fault at this place.
pub fn refused(place: u32, kind: TextKind) -> TextFault
    ensures { result ≡ TextFault.At place kind }
{
    TextFault::At { place, kind }
}

/// The fault of a chain that goes on for too long, of which this was read.
pub fn endless<A: Drop>(_read: A) -> TextFault
    ensures { result ≡ TextFault.At 0 TextKind.TooMany }
{
    refused(0, TextKind::TooMany)
}

/// A token that cannot stand at its place.
pub fn unexpected(place: u32) -> TextFault
    ensures { result ≡ TextFault.At place TextKind.Unexpected }
{
    refused(place, TextKind::Unexpected)
}

/// What a token stands for where a declared name may stand, or why it can't stand there.
#[tactic(auto, unfolding(crate::specs::Input::named))]
pub fn named(names: &Names, token: &Token<'_>) -> Result<NameRef, TextKind>
    requires { IsText (lexeme token.now) }
    ensures { result ≡ spec.named names.now (lexeme token.now) }
{
    if token.kind != TokenKind::Word {
        return Err(TextKind::Unexpected);
    }
    let word = match str::from_utf8(token.text) {
        Ok(word) => word,
        Err(_) => unreachable!(),
    };
    if is_reserved(word) {
        return Err(TextKind::Unexpected);
    }
    names.find(word).ok_or(TextKind::UnknownName)
}
