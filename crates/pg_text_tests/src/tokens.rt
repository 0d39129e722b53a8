//! Texts and their tokens.

use pg_cases::{agree, lexer_of};
use pg_lex::{Lexer, Sign, TextFault, TextKind, Token, TokenKind};
use std::test::Fail;

/// A text, its tokens with their places and bytes, and what comes after them: `End` at the place, or the fault there.
struct Row {
    text: &'static [u8],
    tokens: &'static [(TokenKind, u32, &'static [u8])],
    stop: u32,
    fault: Option<TextKind>,
}

const WORD: TokenKind = TokenKind::Word;

static ROWS: [Row; 24] = [
    Row {
        text: b"",
        tokens: &[],
        stop: 0,
        fault: None,
    },
    Row {
        text: b" \t\r\n",
        tokens: &[],
        stop: 4,
        fault: None,
    },
    // A comment at the end without a newline; one with bytes above 127; a carriage return ends none.
    Row {
        text: b"a#b",
        tokens: &[(WORD, 0, b"a")],
        stop: 3,
        fault: None,
    },
    Row {
        text: b"#\xff\x80 z\rq\nb",
        tokens: &[(WORD, 8, b"b")],
        stop: 9,
        fault: None,
    },
    Row {
        text: b"x1 y_2z",
        tokens: &[(WORD, 0, b"x1"), (WORD, 3, b"y_2z")],
        stop: 7,
        fault: None,
    },
    Row {
        text: b"1x",
        tokens: &[(TokenKind::Number(1), 0, b"1"), (WORD, 1, b"x")],
        stop: 2,
        fault: None,
    },
    // 32 bytes, and 33.
    Row {
        text: b"abcdefghijklmnopqrstuvwxyz012345 c",
        tokens: &[
            (WORD, 0, b"abcdefghijklmnopqrstuvwxyz012345"),
            (WORD, 33, b"c"),
        ],
        stop: 34,
        fault: None,
    },
    Row {
        text: b" abcdefghijklmnopqrstuvwxyz0123456",
        tokens: &[],
        stop: 1,
        fault: Some(TextKind::NameTooLong),
    },
    Row {
        text: b"4294967295;",
        tokens: &[
            (TokenKind::Number(4294967295), 0, b"4294967295"),
            (TokenKind::Sign(Sign::Semicolon), 10, b";"),
        ],
        stop: 11,
        fault: None,
    },
    Row {
        text: b"  4294967296",
        tokens: &[],
        stop: 2,
        fault: Some(TextKind::NumberTooLarge),
    },
    Row {
        text: b"99999999999999999999999999999999999999999x",
        tokens: &[],
        stop: 0,
        fault: Some(TextKind::NumberTooLarge),
    },
    Row {
        text: b"0000000000000000000000001",
        tokens: &[(TokenKind::Number(1), 0, b"0000000000000000000000001")],
        stop: 25,
        fault: None,
    },
    Row {
        text: b"ACFLNOPR",
        tokens: &[
            (TokenKind::Letter(65), 0, b"A"),
            (TokenKind::Letter(67), 1, b"C"),
            (TokenKind::Letter(70), 2, b"F"),
            (TokenKind::Letter(76), 3, b"L"),
            (TokenKind::Letter(78), 4, b"N"),
            (TokenKind::Letter(79), 5, b"O"),
            (TokenKind::Letter(80), 6, b"P"),
            (TokenKind::Letter(82), 7, b"R"),
        ],
        stop: 8,
        fault: None,
    },
    Row {
        text: b"B",
        tokens: &[],
        stop: 0,
        fault: Some(TextKind::BadCharacter),
    },
    Row {
        text: b"_a",
        tokens: &[],
        stop: 0,
        fault: Some(TextKind::BadCharacter),
    },
    Row {
        text: b"a\xff",
        tokens: &[(WORD, 0, b"a")],
        stop: 1,
        fault: Some(TextKind::NotAscii),
    },
    Row {
        text: b"\x7f",
        tokens: &[],
        stop: 0,
        fault: Some(TextKind::BadCharacter),
    },
    Row {
        text: b"\x80",
        tokens: &[],
        stop: 0,
        fault: Some(TextKind::NotAscii),
    },
    // Each sign that begins a longer one, beside that one.
    Row {
        text: b":=:",
        tokens: &[(TokenKind::Sign(Sign::Assign), 0, b":=")],
        stop: 2,
        fault: Some(TextKind::BadCharacter),
    },
    Row {
        text: b": =",
        tokens: &[],
        stop: 0,
        fault: Some(TextKind::BadCharacter),
    },
    Row {
        text: b"->-->- >",
        tokens: &[
            (TokenKind::Sign(Sign::Arrow), 0, b"->"),
            (TokenKind::Sign(Sign::Minus), 2, b"-"),
            (TokenKind::Sign(Sign::Arrow), 3, b"->"),
            (TokenKind::Sign(Sign::Minus), 5, b"-"),
            (TokenKind::Sign(Sign::Greater), 7, b">"),
        ],
        stop: 8,
        fault: None,
    },
    Row {
        text: b"!=!==!",
        tokens: &[
            (TokenKind::Sign(Sign::NotEqual), 0, b"!="),
            (TokenKind::Sign(Sign::NotEqual), 2, b"!="),
            (TokenKind::Sign(Sign::Equal), 4, b"="),
            (TokenKind::Sign(Sign::Not), 5, b"!"),
        ],
        stop: 6,
        fault: None,
    },
    Row {
        text: b"&|+*()[]{}<>,",
        tokens: &[
            (TokenKind::Sign(Sign::And), 0, b"&"),
            (TokenKind::Sign(Sign::Or), 1, b"|"),
            (TokenKind::Sign(Sign::Plus), 2, b"+"),
            (TokenKind::Sign(Sign::Times), 3, b"*"),
            (TokenKind::Sign(Sign::Open), 4, b"("),
            (TokenKind::Sign(Sign::Close), 5, b")"),
            (TokenKind::Sign(Sign::OpenSquare), 6, b"["),
            (TokenKind::Sign(Sign::CloseSquare), 7, b"]"),
            (TokenKind::Sign(Sign::OpenBrace), 8, b"{"),
            (TokenKind::Sign(Sign::CloseBrace), 9, b"}"),
            (TokenKind::Sign(Sign::Less), 10, b"<"),
            (TokenKind::Sign(Sign::Greater), 11, b">"),
            (TokenKind::Sign(Sign::Comma), 12, b","),
        ],
        stop: 13,
        fault: None,
    },
    Row {
        text: b"x := 3; # set\n\r\n[P(x,3)]",
        tokens: &[
            (WORD, 0, b"x"),
            (TokenKind::Sign(Sign::Assign), 2, b":="),
            (TokenKind::Number(3), 5, b"3"),
            (TokenKind::Sign(Sign::Semicolon), 6, b";"),
            (TokenKind::Sign(Sign::OpenSquare), 16, b"["),
            (TokenKind::Letter(80), 17, b"P"),
            (TokenKind::Sign(Sign::Open), 18, b"("),
            (WORD, 19, b"x"),
            (TokenKind::Sign(Sign::Comma), 20, b","),
            (TokenKind::Number(3), 21, b"3"),
            (TokenKind::Sign(Sign::Close), 22, b")"),
            (TokenKind::Sign(Sign::CloseSquare), 23, b"]"),
        ],
        stop: 24,
        fault: None,
    },
];

/// Passes where a text is read as its tokens, and then what comes after them, again and again.
fn is_read(row: &'static Row) -> Result<(), Fail> {
    are_read(&mut lexer_of(row.text)?, row)
}

fn are_read(lexer: &mut Lexer<'_>, row: &'static Row) -> Result<(), Fail> {
    for (kind, place, text) in row.tokens {
        let token = Token {
            kind: *kind,
            place: *place,
            text: *text,
        };
        agree(lexer.next(), Ok(token), row.text)?;
    }
    let place = row.stop;
    let stop = match row.fault {
        None => Ok(Token {
            kind: TokenKind::End,
            place,
            text: b"",
        }),
        Some(kind) => Err(TextFault::At { place, kind }),
    };
    agree(
        [lexer.peek(), lexer.next(), lexer.next()],
        [stop; 3],
        row.text,
    )
}

#[test]
fn texts_have_their_tokens() -> Result<(), Fail> {
    for row in &ROWS {
        is_read(row)?;
    }
    Ok(())
}
