//! Formulas that are read from the start of a text, and their first faults.

use pg_assertion_text::{parse_crash, parse_formula};
use pg_cases::{Pieces, agree, lexer_of, on, repeated};
use pg_lex::{Sign, TextFault, TextKind, TokenKind};
use pg_program::Names;
use std::alloc::Global;
use std::test::Fail;

/// A text and its first fault.
struct Fault {
    text: &'static [u8],
    place: u32,
    kind: TextKind,
}

/// A text in pieces, and its first fault, if it has one.
struct Limit {
    pieces: Pieces,
    fault: Option<(u32, TextKind)>,
}

static FAULTS: [Fault; 22] = [
    Fault {
        text: b"a = 4294967296",
        place: 4,
        kind: TextKind::NumberTooLarge,
    },
    Fault {
        text: b"b = 1",
        place: 0,
        kind: TextKind::UnknownName,
    },
    Fault {
        text: b"L(b,0)",
        place: 2,
        kind: TextKind::UnknownName,
    },
    Fault {
        text: b"!R(1,b,4294967296)",
        place: 5,
        kind: TextKind::UnknownName,
    },
    // Names of the wrong kind, and words that are no names.
    Fault {
        text: b"x = 1",
        place: 0,
        kind: TextKind::Unexpected,
    },
    Fault {
        text: b"L(a,0)",
        place: 2,
        kind: TextKind::Unexpected,
    },
    Fault {
        text: b"true & values = 1",
        place: 7,
        kind: TextKind::Unexpected,
    },
    Fault {
        text: b"L(true,0)",
        place: 2,
        kind: TextKind::Unexpected,
    },
    // A name is no number, whether it is declared or not.
    Fault {
        text: b"a = b",
        place: 4,
        kind: TextKind::Unexpected,
    },
    Fault {
        text: b"N(x,1)",
        place: 2,
        kind: TextKind::Unexpected,
    },
    Fault {
        text: b"1 = a",
        place: 0,
        kind: TextKind::Unexpected,
    },
    Fault {
        text: b"a := 1",
        place: 2,
        kind: TextKind::Unexpected,
    },
    Fault {
        text: b"L(x,0,1)",
        place: 5,
        kind: TextKind::Unexpected,
    },
    Fault {
        text: b"N(1,x]",
        place: 5,
        kind: TextKind::Unexpected,
    },
    // A part that is missing.
    Fault {
        text: b" # a = 1",
        place: 8,
        kind: TextKind::Unexpected,
    },
    Fault {
        text: b"true & | a = 1",
        place: 7,
        kind: TextKind::Unexpected,
    },
    Fault {
        text: b"true ->",
        place: 7,
        kind: TextKind::Unexpected,
    },
    Fault {
        text: b"(true | )",
        place: 8,
        kind: TextKind::Unexpected,
    },
    Fault {
        text: b"(true & !false",
        place: 14,
        kind: TextKind::Unexpected,
    },
    // The lexer refuses a token, also one after a whole formula.
    Fault {
        text: b"true & B(x,0)",
        place: 7,
        kind: TextKind::BadCharacter,
    },
    Fault {
        text: b"true ~",
        place: 5,
        kind: TextKind::BadCharacter,
    },
    Fault {
        text: b"a = 1\xff",
        place: 5,
        kind: TextKind::NotAscii,
    },
];

static CRASH_FAULTS: [Fault; 4] = [
    Fault {
        text: b"L(x,1)",
        place: 0,
        kind: TextKind::Unexpected,
    },
    Fault {
        text: b"x = 1 & z = 0",
        place: 8,
        kind: TextKind::UnknownName,
    },
    Fault {
        text: b"x = 4294967296",
        place: 4,
        kind: TextKind::NumberTooLarge,
    },
    Fault {
        text: b"crash = 1",
        place: 0,
        kind: TextKind::Unexpected,
    },
];

/// One atom of each shape.
static SHAPES: [&[u8]; 5] = [b"a = 1", b"L(x,1)", b"N(1,x)", b"R(1,x,0)", b"C(1,x,0,y,1)"];

static LIMITS: [Limit; 12] = [
    // 512 nodes, and a sign, a constant, an atom and a `!` as node 513.
    Limit {
        pieces: &[(1, b"!true"), (255, b" & true")],
        fault: None,
    },
    Limit {
        pieces: &[(1, b"!true"), (256, b" & true")],
        fault: Some((1791, TextKind::TooMany)),
    },
    Limit {
        pieces: &[(256, b"true & "), (1, b"true")],
        fault: Some((1792, TextKind::TooMany)),
    },
    Limit {
        pieces: &[(256, b"true | "), (1, b"(N(1,x))")],
        fault: Some((1793, TextKind::TooMany)),
    },
    Limit {
        pieces: &[(256, b"true -> "), (1, b"!true")],
        fault: Some((2048, TextKind::TooMany)),
    },
    // An undeclared name as node 513.
    Limit {
        pieces: &[(256, b"true & "), (1, b"b = 1")],
        fault: Some((1792, TextKind::UnknownName)),
    },
    // 32 and 33 brackets and `!`, which are closed again.
    Limit {
        pieces: &[(32, b"("), (1, b"L(x,0)"), (32, b")")],
        fault: None,
    },
    Limit {
        pieces: &[(33, b"("), (1, b"true"), (33, b")")],
        fault: Some((32, TextKind::TooDeep)),
    },
    Limit {
        pieces: &[(40, b"(true) & "), (32, b"!"), (1, b"a = 1")],
        fault: None,
    },
    Limit {
        pieces: &[(16, b"!("), (1, b"!true"), (16, b")")],
        fault: Some((32, TextKind::TooDeep)),
    },
    // The 33rd `!` that is open is node 511, and node 513.
    Limit {
        pieces: &[(239, b"true & "), (33, b"!"), (1, b"true")],
        fault: Some((1705, TextKind::TooDeep)),
    },
    Limit {
        pieces: &[(240, b"true & "), (33, b"!"), (1, b"true")],
        fault: Some((1712, TextKind::TooMany)),
    },
];

/// Texts with a formula in front, and the token after it.
static LEFT: [(&[u8], TokenKind); 6] = [
    (b"a = 1;", TokenKind::Sign(Sign::Semicolon)),
    (b"true true", TokenKind::Word),
    (b"L(x,1) # of x\n] ~", TokenKind::Sign(Sign::CloseSquare)),
    (b"(true))", TokenKind::Sign(Sign::Close)),
    (b"a = 1 = 2", TokenKind::Sign(Sign::Equal)),
    (b"!false", TokenKind::End),
];

/// The locations x and y, and the register a.
const DECLARED: &[u8] =
    b"pierogi 1; values 4; location x = 0; location y = 0; register a of 1; thread 1 { [true] }";

/// The fault at a place.
fn fault_at(place: u32, kind: TextKind) -> Option<TextFault> {
    Some(TextFault::At { place, kind })
}

/// The fault of the assertion at the start of a text, if it has one.
fn fault_of(alloc: Global, names: &Names, text: &[u8]) -> Result<Option<TextFault>, Fail> {
    let mut lexer = lexer_of(text)?;
    Ok(parse_formula(alloc, &mut lexer, names).err())
}

/// The fault of the crash formula at the start of a text, if it has one.
fn crash_fault_of(alloc: Global, names: &Names, text: &[u8]) -> Result<Option<TextFault>, Fail> {
    let mut lexer = lexer_of(text)?;
    Ok(parse_crash(alloc, &mut lexer, names).err())
}

#[test]
fn assertions_have_their_faults(rt: HostRuntime) -> Result<(), Fail> {
    let alloc = rt.alloc();
    on(alloc, DECLARED, |o| {
        for case in &FAULTS {
            let found = fault_of(alloc, o.program().names(), case.text)?;
            agree(found, fault_at(case.place, case.kind), case.text)?;
        }
        Ok(())
    })
}

#[test]
fn crash_formulas_have_their_faults(rt: HostRuntime) -> Result<(), Fail> {
    let alloc = rt.alloc();
    on(alloc, DECLARED, |o| {
        for case in &CRASH_FAULTS {
            let found = crash_fault_of(alloc, o.program().names(), case.text)?;
            agree(found, fault_at(case.place, case.kind), case.text)?;
        }
        Ok(())
    })
}

/// Passes where the text is an assertion, and each beginning of it ends too early.
fn is_whole(alloc: Global, names: &Names, text: &[u8]) -> Result<(), Fail> {
    for len in 0..text.len() {
        let found = fault_of(alloc, names, &text[..len])?;
        let place = u32::try_from(len)?;
        agree(found, fault_at(place, TextKind::Unexpected), text)?;
    }
    agree(fault_of(alloc, names, text)?, None, text)
}

#[test]
fn an_atom_that_is_cut_off_ends_too_early(rt: HostRuntime) -> Result<(), Fail> {
    let alloc = rt.alloc();
    on(alloc, DECLARED, |o| {
        for text in &SHAPES {
            is_whole(alloc, o.program().names(), *text)?;
        }
        Ok(())
    })
}

/// Passes where the text of a limit has its fault, or none.
fn is_kept(alloc: Global, names: &Names, case: &Limit) -> Result<(), Fail> {
    let text = repeated(alloc, case.pieces)?;
    let wanted = match case.fault {
        Some((place, kind)) => fault_at(place, kind),
        None => None,
    };
    agree(fault_of(alloc, names, &text)?, wanted, &text)
}

#[test]
fn limits_are_kept(rt: HostRuntime) -> Result<(), Fail> {
    let alloc = rt.alloc();
    on(alloc, DECLARED, |o| {
        for case in &LIMITS {
            is_kept(alloc, o.program().names(), case)?;
        }
        Ok(())
    })
}

/// The token after the assertion at the start of a text.
fn left(alloc: Global, names: &Names, text: &[u8]) -> Result<TokenKind, Fail> {
    let mut lexer = lexer_of(text)?;
    let _f = parse_formula(alloc, &mut lexer, names)?;
    Ok(lexer.next()?.kind)
}

#[test]
fn what_stands_behind_is_left(rt: HostRuntime) -> Result<(), Fail> {
    let alloc = rt.alloc();
    on(alloc, DECLARED, |o| {
        for (text, kind) in &LEFT {
            agree(left(alloc, o.program().names(), *text)?, *kind, *text)?;
        }
        Ok(())
    })
}
