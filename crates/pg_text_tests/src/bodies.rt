//! Bodies of threads that are read from the start of a text, and their first faults.

use pg_cases::{Pieces, agree, lexer_of, on, repeated};
use pg_lex::{TextFault, TextKind};
use pg_program::Names;
use pg_program_text::{ThreadText, parse_thread};
use std::alloc::Global;
use std::test::Fail;

/// A text in pieces, and how many statements and notes it has: the points of blocks have notes of the thread, and their statements
/// are no statements of it.
struct Read {
    pieces: Pieces,
    stmts: usize,
    notes: usize,
}

/// A text in pieces, and its first fault.
struct Fault {
    pieces: Pieces,
    place: u32,
    kind: TextKind,
}

static BODIES: [Read; 15] = [
    Read {
        pieces: &[(1, b"[true]")],
        stmts: 0,
        notes: 1,
    },
    Read {
        pieces: &[(1, b"[true] x := 1; [L(x,1)]")],
        stmts: 1,
        notes: 2,
    },
    Read {
        pieces: &[(
            1,
            b"[true] a := x; [true] a := cas(x, 0, 1); [true] a := (a + 1) * 2 - a; [true]",
        )],
        stmts: 3,
        notes: 4,
    },
    Read {
        pieces: &[(
            1,
            b"[true] mfence; [true] sfence; [true] flush x; [true] flushopt y < e := a, f := e + 1 >; [true]",
        )],
        stmts: 4,
        notes: 5,
    },
    Read {
        pieces: &[(
            1,
            b"[true] if a = 1 { [true] x := 1; [true] y := 2; } else { } [true]",
        )],
        stmts: 1,
        notes: 4,
    },
    Read {
        pieces: &[(1, b"[true] while a != 0 { } [true] if a = 0 { } [true]")],
        stmts: 2,
        notes: 3,
    },
    Read {
        pieces: &[(
            1,
            b"[true]while a=0{[true]if a=1{[true]flush x;}else{[true]sfence;}}[true]}",
        )],
        stmts: 1,
        notes: 5,
    },
    Read {
        pieces: &[(1, b"[true] z := 1;")],
        stmts: 0,
        notes: 1,
    },
    Read {
        pieces: &[(1, b"[true] else { }")],
        stmts: 0,
        notes: 1,
    },
    Read {
        pieces: &[(1, b"[true] [true]")],
        stmts: 0,
        notes: 1,
    },
    Read {
        pieces: &[(1, b"[true] x := "), (15, b"1+"), (1, b"1; [true]")],
        stmts: 1,
        notes: 2,
    },
    Read {
        pieces: &[
            (1, b"[true] x := "),
            (32, b"("),
            (1, b"1"),
            (32, b")"),
            (1, b"; [true]"),
        ],
        stmts: 1,
        notes: 2,
    },
    Read {
        pieces: &[(
            1,
            b"[true] mfence < e := 1, f := 1, e := 1, f := 1 >; [true]",
        )],
        stmts: 1,
        notes: 2,
    },
    Read {
        pieces: &[
            (1, b"[true] "),
            (15, b"if a = 1 { [true] "),
            (1, b"if a = 1 { "),
            (16, b"} "),
            (1, b"[true]"),
        ],
        stmts: 1,
        notes: 17,
    },
    Read {
        pieces: &[(31, b"[true] mfence; "), (1, b"[true]")],
        stmts: 31,
        notes: 32,
    },
];

static FAULTS: [Fault; 24] = [
    Fault {
        pieces: &[],
        place: 0,
        kind: TextKind::Unexpected,
    },
    Fault {
        pieces: &[(1, b"[true] x := 1;")],
        place: 14,
        kind: TextKind::Unexpected,
    },
    Fault {
        pieces: &[(1, b"[true] x := ; [true]")],
        place: 12,
        kind: TextKind::Unexpected,
    },
    Fault {
        pieces: &[(1, b"[true] x 1; [true]")],
        place: 9,
        kind: TextKind::Unexpected,
    },
    Fault {
        pieces: &[(1, b"[true] a := z; [true]")],
        place: 12,
        kind: TextKind::UnknownName,
    },
    Fault {
        pieces: &[(1, b"[true] x := y; [true]")],
        place: 12,
        kind: TextKind::Unexpected,
    },
    Fault {
        pieces: &[(1, b"[true] flush a; [true]")],
        place: 13,
        kind: TextKind::Unexpected,
    },
    Fault {
        pieces: &[(1, b"[true] a := cas(x, 1); [true]")],
        place: 20,
        kind: TextKind::Unexpected,
    },
    Fault {
        pieces: &[(1, b"[true] a := x + 1; [true]")],
        place: 14,
        kind: TextKind::Unexpected,
    },
    Fault {
        pieces: &[(1, b"[true] if a = 1 { [true] z := 1; } [true]")],
        place: 25,
        kind: TextKind::UnknownName,
    },
    Fault {
        pieces: &[(1, b"[true] if a { } [true]")],
        place: 12,
        kind: TextKind::Unexpected,
    },
    Fault {
        pieces: &[(1, b"[true] if a = 1 { [true] } [true]")],
        place: 25,
        kind: TextKind::Unexpected,
    },
    Fault {
        pieces: &[(1, b"[true] if a = 1 { x := 1; } [true]")],
        place: 18,
        kind: TextKind::Unexpected,
    },
    Fault {
        pieces: &[(1, b"[true] x := 1 < a := 1 >; [true]")],
        place: 16,
        kind: TextKind::Unexpected,
    },
    Fault {
        pieces: &[(1, b"[true] x := 1 < z := 1 >; [true]")],
        place: 16,
        kind: TextKind::UnknownName,
    },
    Fault {
        pieces: &[(1, b"[true] mfence < e := 1; [true]")],
        place: 22,
        kind: TextKind::Unexpected,
    },
    Fault {
        pieces: &[(
            1,
            b"[true] mfence < e := 1, f := 1, e := 1, f := 1, e := 1 >; [true]",
        )],
        place: 48,
        kind: TextKind::TooMany,
    },
    Fault {
        pieces: &[(
            1,
            b"[true] mfence < e := 1, f := 1, e := 1, f := 1, z := 1 >; [true]",
        )],
        place: 48,
        kind: TextKind::UnknownName,
    },
    Fault {
        pieces: &[(1, b"[x = 1] x := 1; [true]")],
        place: 1,
        kind: TextKind::Unexpected,
    },
    Fault {
        pieces: &[(1, b"[true] x := 4294967296; [true]")],
        place: 12,
        kind: TextKind::NumberTooLarge,
    },
    Fault {
        pieces: &[(1, b"[true] x := "), (16, b"1+"), (1, b"1; [true]")],
        place: 44,
        kind: TextKind::TooMany,
    },
    Fault {
        pieces: &[
            (1, b"[true] x := "),
            (33, b"("),
            (1, b"1"),
            (33, b")"),
            (1, b"; [true]"),
        ],
        place: 44,
        kind: TextKind::TooDeep,
    },
    Fault {
        pieces: &[(1, b"[true] "), (17, b"if a = 1 { [true] ")],
        place: 304,
        kind: TextKind::TooDeep,
    },
    Fault {
        pieces: &[(32, b"[true] mfence; "), (1, b"[true]")],
        place: 480,
        kind: TextKind::TooMany,
    },
];

/// The locations x and y, the register a, and the auxiliaries e and f.
const DECLARED: &[u8] =
    b"pierogi 1; values 4; location x = 0; location y = 0; register a of 1; auxiliary e; auxiliary f; thread 1 { [true] }";

/// The body at the start of a text, or its fault.
fn body(alloc: Global, names: &Names, text: &[u8]) -> Result<Result<ThreadText, TextFault>, Fail> {
    let mut lexer = lexer_of(text)?;
    Ok(parse_thread(alloc, &mut lexer, names))
}

#[test]
fn bodies_are_read(rt: HostRuntime) -> Result<(), Fail> {
    let alloc = rt.alloc();
    on(alloc, DECLARED, |o| {
        for case in &BODIES {
            let text = repeated(alloc, case.pieces)?;
            let body = body(alloc, o.program().names(), &text)??;
            agree(body.stmts.len(), case.stmts, &text)?;
            agree(body.notes.len(), case.notes, &text)?;
        }
        Ok(())
    })
}

#[test]
fn bodies_have_their_faults(rt: HostRuntime) -> Result<(), Fail> {
    let alloc = rt.alloc();
    on(alloc, DECLARED, |o| {
        for case in &FAULTS {
            let text = repeated(alloc, case.pieces)?;
            let fault = TextFault::At {
                place: case.place,
                kind: case.kind,
            };
            let found = body(alloc, o.program().names(), &text)?.err();
            agree(found, Some(fault), &text)?;
        }
        Ok(())
    })
}
