//! Texts of outlines, the first fault of each that is none, and what an outline gives back.

use crate::programs::shown;
use pg_assertion::{Formula, ViewAtom};
use pg_cases::{Pieces, agree, between, fault_of, on, repeated};
use pg_outline::{Outline, erase};
use pg_program::{NameRef, Program};
use std::alloc::{AllocError, Global};
use std::test::Fail;

/// A text that is no outline, and its first fault as it is written.
struct Refused {
    text: &'static [u8],
    fault: &'static str,
}

/// Texts that stand for an outline.
static OUTLINES: [&[u8]; 6] = [
    b"pierogi 1; values 2; location x = 0; register a of 1; auxiliary e; pre L(x,0); crash x = 0 | x = 1; thread 1 { [true] x := 1; [L(x,1)] }",
    b"pierogi 1; values 2; thread 1 { [true] }",
    b"pierogi 1; values 2; thread 1 { [true] } thread 2 { [true] } thread 3 { [true] } thread 4 { [true] } # the last",
    b"pierogi 01;values 02;location x=00;crash x=0;thread 1{[P(x,0)]x:=1;[true]}",
    b"pierogi 1; values 3; location x = 0; thread 1 { [true] x := 2; [true] }",
    b"pierogi 1; values 4; location x = 3; thread 1 { [true] }",
];

/// Faults of the tokens and of the version.
static IN_TOKENS: [Refused; 40] = [
    Refused {
        text: b"",
        fault: "at byte 0: a token that cannot stand here",
    },
    Refused {
        text: b"pierog",
        fault: "at byte 0: a token that cannot stand here",
    },
    Refused {
        text: b"values 2;",
        fault: "at byte 0: a token that cannot stand here",
    },
    Refused {
        text: b"pierogi ;",
        fault: "at byte 8: a token that cannot stand here",
    },
    Refused {
        text: b"pierogi 1 values 2;",
        fault: "at byte 10: a token that cannot stand here",
    },
    Refused {
        text: b"pierogi 9",
        fault: "the version 9 is not known",
    },
    Refused {
        text: b"pierogi 9\xff",
        fault: "the version 9 is not known",
    },
    Refused {
        text: b"pierogi 0; values 2;",
        fault: "the version 0 is not known",
    },
    Refused {
        text: b"pierogi 1; value 2; ",
        fault: "at byte 11: a token that cannot stand here",
    },
    Refused {
        text: b"pierogi 1; values 2; \xff",
        fault: "at byte 21: a byte above 127 outside a comment",
    },
    Refused {
        text: b"pierogi 1; values 2; ?",
        fault: "at byte 21: a byte that begins no token",
    },
    Refused {
        text: b"pierogi 1; values 4294967296;",
        fault: "at byte 18: a number above 4294967295",
    },
    Refused {
        text: b"pierogi 1; values 2; location xxxxxxxxxxxxxxxxxxxxxxxxxxxxxxxxx = 0;",
        fault: "at byte 30: a word of more than 32 bytes",
    },
    Refused {
        text: b"pierogi 1; values 2; location thread = 0;",
        fault: "at byte 30: a token that cannot stand here",
    },
    Refused {
        text: b"pierogi 1; values 2; location L = 0;",
        fault: "at byte 30: a token that cannot stand here",
    },
    Refused {
        text: b"pierogi 1; values 2; register 1 of 1;",
        fault: "at byte 30: a token that cannot stand here",
    },
    Refused {
        text: b"pierogi 1; values 2; location x = 0; register x of 1;",
        fault: "at byte 46: a name that is declared already",
    },
    Refused {
        text: b"pierogi 1; values 2; auxiliary x; location x = 0;",
        fault: "at byte 43: a name that is declared already",
    },
    Refused {
        text: b"pierogi 1; values 2; location x 0;",
        fault: "at byte 32: a token that cannot stand here",
    },
    Refused {
        text: b"pierogi 1; values 2; register a 1;",
        fault: "at byte 32: a token that cannot stand here",
    },
    Refused {
        text: b"pierogi 1; values 2; auxiliary e of 1;",
        fault: "at byte 33: a token that cannot stand here",
    },
    Refused {
        text: b"pierogi 1; values 2; location u = 0; location v = 0; location w = 0; location x = 0; location y = 0; location z = 0; location t = 0;",
        fault: "at byte 126: too many parts",
    },
    Refused {
        text: b"pierogi 1; values 2; location u = 0; location v = 0; location w = 0; location x = 0; location y = 0; location z = 0; location u = 0;",
        fault: "at byte 126: a name that is declared already",
    },
    Refused {
        text: b"pierogi 1; values 2; location u = 0; location v = 0; location w = 0; location x = 0; location y = 0; location z = 0; location if = 0;",
        fault: "at byte 126: a token that cannot stand here",
    },
    Refused {
        text: b"pierogi 1; values 2; auxiliary a; auxiliary b; auxiliary c; auxiliary d; auxiliary e; auxiliary f; auxiliary g; auxiliary h; auxiliary i; auxiliary j; auxiliary k; auxiliary l; auxiliary m; auxiliary n; auxiliary o; auxiliary p; register q of 1;",
        fault: "at byte 238: too many parts",
    },
    Refused {
        text: b"pierogi 1; values 2; auxiliary a; auxiliary b; auxiliary c; auxiliary d; auxiliary e; auxiliary f; auxiliary g; auxiliary h; auxiliary i; auxiliary j; auxiliary k; auxiliary l; auxiliary m; auxiliary n; auxiliary o; auxiliary p; auxiliary a;",
        fault: "at byte 239: a name that is declared already",
    },
    Refused {
        text: b"pierogi 1; values 2; ",
        fault: "at byte 21: a token that cannot stand here",
    },
    Refused {
        text: b"pierogi 1; values 2; pre true; location x = 0; thread 1 { [true] }",
        fault: "at byte 31: a token that cannot stand here",
    },
    Refused {
        text: b"pierogi 1; values 2; crash true; pre true; thread 1 { [true] }",
        fault: "at byte 33: a token that cannot stand here",
    },
    Refused {
        text: b"pierogi 1; values 2; pre x = 0; thread 1 { [true] }",
        fault: "at byte 25: a name that is not declared",
    },
    Refused {
        text: b"pierogi 1; values 2; location x = 0; register a of 1; auxiliary e; crash L(x,0); thread 1 { [true] x := 1; [L(x,1)] }",
        fault: "at byte 73: a token that cannot stand here",
    },
    Refused {
        text: b"pierogi 1; values 2; pre true thread 1 { [true] }",
        fault: "at byte 30: a token that cannot stand here",
    },
    Refused {
        text: b"pierogi 1; values 2; pre !!!!!!!!!!!!!!!!!!!!!!!!!!!!!!!!!true; thread 1 { [true] }",
        fault: "at byte 57: parts nested too deeply",
    },
    Refused {
        text: b"pierogi 1; values 2; thread 2 { [true] }",
        fault: "at byte 28: a token that cannot stand here",
    },
    Refused {
        text: b"pierogi 1; values 2; thread 1 { [true] } thread 1 { [true] }",
        fault: "at byte 48: a token that cannot stand here",
    },
    Refused {
        text: b"pierogi 1; values 2; thread 1 { [true] } thread 2 { [true] } thread 3 { [true] } thread 4 { [true] } thread 5 { [true] } ",
        fault: "at byte 101: too many parts",
    },
    Refused {
        text: b"pierogi 1; values 2; thread 1 { [true] } thread 2 { [true] } thread 3 { [true] } thread 4 { [true] } x",
        fault: "at byte 101: a token that cannot stand here",
    },
    Refused {
        text: b"pierogi 1; values 2; thread 1 { [true] ",
        fault: "at byte 39: a token that cannot stand here",
    },
    Refused {
        text: b"pierogi 1; values 2; thread 1 { }",
        fault: "at byte 32: a token that cannot stand here",
    },
    Refused {
        text: b"pierogi 1; values 2; thread 1 { [true] x := 1; [true] }",
        fault: "at byte 39: a name that is not declared",
    },
];

/// Faults of the program and of the formulas.
static BEHIND_TOKENS: [Refused; 16] = [
    Refused {
        text: b"pierogi 1; values 5; location x = 7; pre L(x,9); thread 1 { [true] }",
        fault: "the domain has 5 values, and not 2 to 4",
    },
    Refused {
        text: b"pierogi 1; values 1; thread 1 { [true] }",
        fault: "the domain has 1 values, and not 2 to 4",
    },
    Refused {
        text: b"pierogi 1; values 2; register a of 2; thread 1 { [true] }",
        fault: "there is no thread 2",
    },
    Refused {
        text: b"pierogi 1; values 2; register a of 0; thread 1 { [true] }",
        fault: "there is no thread 0",
    },
    Refused {
        text: b"pierogi 1; values 2; location x = 3; thread 1 { [true] x := 2; [true] }",
        fault: "the value 3 is not in the domain",
    },
    Refused {
        text: b"pierogi 1; values 2; register a of 2; thread 1 { [true] a := 1; [true] } thread 2 { [true] }",
        fault: "register a belongs to another thread",
    },
    Refused {
        text: b"pierogi 1; values 2; location x = 0; register a of 1; auxiliary e; thread 1 { [true] a := e; [true] }",
        fault: "auxiliary e stands outside a bracket",
    },
    Refused {
        text: b"pierogi 1; values 2; location x = 0; register a of 1; auxiliary e; thread 1 { [true] mfence < e := 0, e := 1 >; [true] }",
        fault: "auxiliary e is assigned twice in a bracket",
    },
    Refused {
        text: b"pierogi 1; values 2; location x = 2; pre L(x,3); thread 1 { [true] }",
        fault: "the value 2 is not in the domain",
    },
    Refused {
        text: b"pierogi 1; values 2; location x = 0; register a of 1; auxiliary e; thread 1 { [L(x,7)] x := 5; [true] }",
        fault: "the value 5 is not in the domain",
    },
    Refused {
        text: b"pierogi 1; values 2; register a of 1; register b of 1; register c of 1; register d of 1; register e of 1; pre a = 9; thread 1 { [true] a := a+b+c+d+e; [true] }",
        fault: "an expression or a condition reads more than four names at 1.1",
    },
    Refused {
        text: b"pierogi 1; values 2; location x = 0; register a of 1; auxiliary e; pre L(x,2); thread 1 { [true] }",
        fault: "the value 2 is not in the domain",
    },
    Refused {
        text: b"pierogi 1; values 2; location x = 0; register a of 1; auxiliary e; crash x = 3; thread 1 { [R(2,x,0)] }",
        fault: "the value 3 is not in the domain",
    },
    Refused {
        text: b"pierogi 1; values 2; location x = 0; register a of 1; auxiliary e; thread 1 { [R(2,x,2)] }",
        fault: "there is no thread 2",
    },
    Refused {
        text: b"pierogi 1; values 2; location w = 0; location x = 0; location y = 0; location z = 0; crash w = 0 & x = 0 & y = 0 & z = 0; thread 1 { [true] }",
        fault: "the crash formula names 4 locations, and not at most 3",
    },
    Refused {
        text: b"pierogi 1; values 4; location x = 0; location y = 0; location z = 0; crash x = 0 & y = 0 & z = 0 & x = 0 & y = 0 & z = 0 & x = 0 & y = 0 & z = 0 & x = 0 & y = 0 & z = 0 & x = 0 & y = 0 & z = 0 & x = 0 & y = 0 & z = 0 & x = 0 & y = 0 & z = 0 & x = 0 & y = 0 & z = 0 & x = 0 & y = 0 & z = 0 & x = 0 & y = 0 & z = 0 & x = 0 & y = 0 & z = 0 & x = 0 & y = 0 & z = 0 & x = 0 & y = 0 & z = 0 & x = 0 & y = 0 & z = 0 & x = 0 & y = 0 & z = 0 & x = 0 & y = 0 & z = 0 & x = 0 & y = 0 & z = 0 & x = 0 & y = 0 & z = 0 & x = 0 & y = 0 & z = 0 & x = 0 & y = 0 & z = 0 & x = 0 & y = 0 & z = 0 & x = 0 & y = 0 & z = 0 & true; thread 1 { [true] }",
        fault: "the expansion of the crash formula has 8959 nodes, and not at most 8192",
    },
];

/// The declarations that the programs with faults stand after.
const DECLARED: &[u8] =
    b"pierogi 1; values 2; location x = 0; register p of 1; register q of 1; register r of 1; register s of 1; register t of 1; register u of 2; auxiliary e; auxiliary f; ";

/// Threads after these declarations, with the fault of the program, if it has one.
static PROGRAMS: [Refused; 22] = [
    Refused {
        text: b"thread 1 { [true] u := 1; [true] } thread 2 { [true] }",
        fault: "register u belongs to another thread",
    },
    Refused {
        text: b"thread 1 { [true] } thread 2 { [true] x := u < f := u >; [true] }",
        fault: "",
    },
    Refused {
        text: b"thread 1 { [true] u := x; [true] } thread 2 { [true] }",
        fault: "register u belongs to another thread",
    },
    Refused {
        text: b"thread 1 { [true] if p = u { } [true] } thread 2 { [true] }",
        fault: "register u belongs to another thread",
    },
    Refused {
        text: b"thread 1 { [true] x := 0 < e := u >; [true] } thread 2 { [true] }",
        fault: "register u belongs to another thread",
    },
    // The faults come in the order of their kinds, and those of a kind in the order of the text.
    Refused {
        text: b"thread 1 { [true] if p = 0 { [true] x := e; } [true] x := u; [true] } thread 2 { [true] }",
        fault: "register u belongs to another thread",
    },
    Refused {
        text: b"thread 1 { [true] x := e; [true] } thread 2 { [true] }",
        fault: "auxiliary e stands outside a bracket",
    },
    Refused {
        text: b"thread 1 { [true] while p != f { } [true] } thread 2 { [true] }",
        fault: "auxiliary f stands outside a bracket",
    },
    Refused {
        text: b"thread 1 { [true] x := 0 < e := e >; [true] } thread 2 { [true] }",
        fault: "",
    },
    Refused {
        text: b"thread 1 { [true] x := 0 < e := 0, e := 1 >; [true] x := e; [true] } thread 2 { [true] }",
        fault: "auxiliary e stands outside a bracket",
    },
    Refused {
        text: b"thread 1 { [true] x := 0 < e := 0, f := 1, e := 1 >; [true] } thread 2 { [true] }",
        fault: "auxiliary e is assigned twice in a bracket",
    },
    Refused {
        text: b"thread 1 { [true] x := 0 < e := 0, f := 1 >; [true] } thread 2 { [true] }",
        fault: "",
    },
    Refused {
        text: b"thread 1 { [true] x := 2; [true] x := 0 < f := 0, f := 1 >; [true] } thread 2 { [true] }",
        fault: "auxiliary f is assigned twice in a bracket",
    },
    Refused {
        text: b"thread 1 { [true] if p = 2 { } else { [true] x := 3; } [true] x := 1; [true] } thread 2 { [true] }",
        fault: "the value 2 is not in the domain",
    },
    Refused {
        text: b"thread 1 { [true] x := 0 < e := 4 >; [true] } thread 2 { [true] }",
        fault: "the value 4 is not in the domain",
    },
    Refused {
        text: b"thread 1 { [true] x := p + q + r + s; [true] } thread 2 { [true] }",
        fault: "",
    },
    Refused {
        text: b"thread 1 { [true] x := p + q + r + p + s + q; [true] } thread 2 { [true] }",
        fault: "",
    },
    Refused {
        text: b"thread 1 { [true] x := p + q + r + s + t; [true] x := 2; [true] } thread 2 { [true] }",
        fault: "the value 2 is not in the domain",
    },
    Refused {
        text: b"thread 1 { [true] if p + q = r + s { [true] x := 0; } else { [true] if p + q = r + s + t { } } [true] } thread 2 { [true] }",
        fault: "an expression or a condition reads more than four names at 1.3",
    },
    Refused {
        text: b"thread 1 { [true] x := 0 < e := p + q + r + s + e >; [true] } thread 2 { [true] while 0 = 0 { } [true] }",
        fault: "an expression or a condition reads more than four names at 1.1",
    },
    Refused {
        text: b"thread 1 { [true] x := 0 < e := p + q + r + e >; [true] } thread 2 { [true] while 0 = 0 { } [true] }",
        fault: "",
    },
    // The register u belongs to thread 2.
    Refused {
        text: b"thread 1 { [true] x := 2; [true] }",
        fault: "there is no thread 2",
    },
];

/// Passes where the fault of a text, if it has one, is written so.
fn is_told(alloc: Global, text: &[u8], fault: &str) -> Result<(), Fail> {
    let found = fault_of(alloc, text)?;
    agree(found.as_str(), fault, text)
}

#[test]
fn outlines_are_read(rt: HostRuntime) -> Result<(), Fail> {
    for text in &OUTLINES {
        is_told(rt.alloc(), *text, "")?;
    }
    Ok(())
}

#[test]
fn the_first_fault_is_told(rt: HostRuntime) -> Result<(), Fail> {
    for case in &IN_TOKENS {
        is_told(rt.alloc(), case.text, case.fault)?;
    }
    for case in &BEHIND_TOKENS {
        is_told(rt.alloc(), case.text, case.fault)?;
    }
    Ok(())
}

#[test]
fn the_first_fault_of_a_program_is_told(rt: HostRuntime) -> Result<(), Fail> {
    for case in &PROGRAMS {
        let text = between(rt.alloc(), DECLARED, case.text, b"")?;
        is_told(rt.alloc(), &text, case.fault)?;
    }
    Ok(())
}

/// The spelling of an expansion, with all brackets.
fn spelled(alloc: Global, f: &Formula<ViewAtom>) -> Result<String, AllocError> {
    match f {
        Formula::True => format!(in alloc; "true"),
        Formula::False => format!(in alloc; "false"),
        Formula::Atom(ViewAtom::Scalar { r, k }) => format!(in alloc; "s{r} = {k}"),
        Formula::Atom(ViewAtom::Persist { x, v }) => format!(in alloc; "P({x},{v})"),
        Formula::Atom(_) => format!(in alloc; "another atom"),
        Formula::Not(f) => format!(in alloc; "!{}", spelled(alloc, f.get())?),
        Formula::And(f, g) => {
            bracketed(
                alloc,
                spelled(alloc, f.get())?,
                "&",
                spelled(alloc, g.get())?,
            )
        }
        Formula::Or(f, g) => {
            bracketed(
                alloc,
                spelled(alloc, f.get())?,
                "|",
                spelled(alloc, g.get())?,
            )
        }
        Formula::Implies(f, g) => {
            bracketed(
                alloc,
                spelled(alloc, f.get())?,
                "->",
                spelled(alloc, g.get())?,
            )
        }
    }
}

fn bracketed(alloc: Global, left: String, sign: &str, right: String) -> Result<String, AllocError> {
    format!(in alloc; "({left} {sign} {right})")
}

/// Crash formulas over x and y, with their expansions.
static EXPANSIONS: [(&[u8], &str); 2] = [
    (
        b"y = 1 -> x = 1",
        "(((\
((P(0,0) & P(1,0)) -> (false -> false)) & \
((P(0,0) & P(1,1)) -> (true -> false))) & \
((P(0,1) & P(1,0)) -> (false -> true))) & \
((P(0,1) & P(1,1)) -> (true -> true)))",
    ),
    (b"a = 1 & true", "(s0 = 1 & true)"),
];

const BEFORE_CRASH: &[u8] =
    b"pierogi 1; values 2; location x = 0; location y = 0; location z = 0; auxiliary a; crash ";

#[test]
fn crash_formulas_are_expanded(rt: HostRuntime) -> Result<(), Fail> {
    let alloc = rt.alloc();
    for (crash, expansion) in &EXPANSIONS {
        let text = between(alloc, BEFORE_CRASH, *crash, b"; thread 1 { [true] }")?;
        let found = on(alloc, &text, |o| Ok(spelled(alloc, o.crash_expanded())?))?;
        agree(found.as_str(), *expansion, &text)?;
    }
    Ok(())
}

/// A text in pieces, and its fault, if it has one.
struct Limit {
    pieces: Pieces,
    fault: &'static str,
}

/// Over three locations and four values, crash formulas of 121 and of 122 nodes.
static LIMITS: [Limit; 2] = [
    Limit {
        pieces: &[
            (
                1,
                b"pierogi 1; values 4; location x = 0; location y = 0; location z = 0; ",
            ),
            (1, b"crash x = 0 & y = 0 & z = 0"),
            (58, b" & true"),
            (1, b"; thread 1 { [true] }"),
        ],
        fault: "",
    },
    Limit {
        pieces: &[
            (
                1,
                b"pierogi 1; values 4; location x = 0; location y = 0; location z = 0; ",
            ),
            (1, b"crash !x = 0 & y = 0 & z = 0"),
            (58, b" & true"),
            (1, b"; thread 1 { [true] }"),
        ],
        fault: "the expansion of the crash formula has 8255 nodes, and not at most 8192",
    },
];

#[test]
fn expansions_have_a_limit(rt: HostRuntime) -> Result<(), Fail> {
    for case in &LIMITS {
        let text = repeated(rt.alloc(), case.pieces)?;
        is_told(rt.alloc(), &text, case.fault)?;
    }
    Ok(())
}

/// The body of a thread with brackets, and its statements and steps without them: every kind of statement has one.
static MARKED: [(&[u8], &str); 4] = [
    (
        b"[e = 0] x := r < e := 1 >; [true] if r = 0 { [true] r := x < f := e, e := f >; } [f = 0]",
        "s1.1>2 i1.2+3 1.2-4 r1.3>4 .",
    ),
    (
        b"[true] flush x < e := 1 >; [true] flushopt x < e := 1 >; [true] mfence < e := 1 >; [true] sfence < e := 1 >; [true]",
        "o1.1>2 o1.2>3 o1.3>4 o1.4>5 .",
    ),
    (
        b"[true] r := cas(x, 0, 1) < e := 1 >; [true] r := 1 < e := r >; [true] x := 1 < e := 1 >; [true]",
        "o1.1>2 o1.2>3 s1.3>4 .",
    ),
    (
        b"[true] while r = 0 { [true] r := x < f := 1 >; } [true] if r = 0 { } else { [true] flush x < e := 1 >; } [true]",
        "w1.1+2 1.1-3 r1.2>1 i1.3+5 1.3-4 o1.4>5 .",
    ),
];

const BEFORE_MARKED: &[u8] =
    b"pierogi 1; values 2; location x = 0; auxiliary e; register r of 1; auxiliary f; thread 1 { ";

/// Passes where a program has these statements and steps, and its register as its only scalar.
fn is_bare(alloc: Global, p: &Program, graph: &str) -> Result<(), Fail> {
    let found = shown(alloc, p)?;
    agree(found.as_str().trim_end(), graph, graph.as_bytes())?;
    let place = p.names().find("r");
    agree(place == Some(NameRef::Scalar(0)), true, graph.as_bytes())
}

/// Passes where an outline without its auxiliaries is such a program.
fn is_erased(alloc: Global, o: &Outline, graph: &str) -> Result<(), Fail> {
    let p = erase(alloc, o)?;
    is_bare(alloc, &p, graph)
}

#[test]
fn auxiliaries_are_erased(rt: HostRuntime) -> Result<(), Fail> {
    let alloc = rt.alloc();
    for (body, graph) in &MARKED {
        let text = between(alloc, BEFORE_MARKED, *body, b" }")?;
        on(alloc, &text, |o| is_erased(alloc, o, *graph))?;
    }
    Ok(())
}
