//! Parts of outlines in any spelling, and their canonical text.

use pg_cases::{agree, between, on};
use pg_outline::Outline;
use pg_outline_text::{VERSION, print_outline};
use std::alloc::Global;
use std::test::Fail;

/// The canonical text of an outline that was read.
fn printed(alloc: Global, o: &Outline) -> Result<Vec<u8>, Fail> {
    if o.program().names().version() != VERSION {
        return Err(Fail::new("the outline is of another version"));
    }
    Ok(print_outline(alloc, o)?)
}

/// Passes where the text between two canonical ones has this canonical spelling there.
fn is_spelled(
    alloc: Global,
    front: &[u8],
    text: &[u8],
    spelling: &[u8],
    behind: &[u8],
) -> Result<(), Fail> {
    let whole = between(alloc, front, text, behind)?;
    let found = on(alloc, &whole, |o| printed(alloc, o))?;
    let wanted = between(alloc, front, spelling, behind)?;
    agree(found.as_slice(), wanted.as_slice(), text)
}

const BEFORE_PRE: &[u8] =
    b"pierogi 1;\nvalues 4;\nlocation x = 0;\nlocation y_2 = 3;\nregister r of 4;\nauxiliary a;\npre ";

const BEFORE_CRASH: &[u8] =
    b"pierogi 1;\nvalues 4;\nlocation x = 0;\nlocation y_2 = 3;\nregister r of 4;\nauxiliary a;\ncrash ";

const BEHIND_FORMULA: &[u8] =
    b";\nthread 1 {\n  [true]\n}\nthread 2 {\n  [true]\n}\nthread 3 {\n  [true]\n}\nthread 4 {\n  [true]\n}\n";

const BEFORE_STATEMENT: &[u8] =
    b"pierogi 1;\nvalues 4;\nlocation x = 0;\nlocation y_2 = 3;\nregister r of 1;\nauxiliary a;\nauxiliary b;\nthread 1 {\n  [true]\n  ";

const BEHIND_STATEMENT: &[u8] = b"\n  [a = 0]\n}\n";

const BEFORE_EXPRESSION: &[u8] =
    b"pierogi 1;\nvalues 4;\nlocation x = 0;\nregister r of 1;\nthread 1 {\n  [true]\n  x := ";

const BEHIND_EXPRESSION: &[u8] = b";\n  [r = 0]\n}\n";

/// Assertions and their spelling.
static ASSERTIONS: [(&[u8], &[u8]); 36] = [
    (
        b"!a = 0 & P(x,1) -> true | L(x,0)",
        b"!a = 0 & P(x,1) -> true | L(x,0)",
    ),
    (b"((L(x,0)))", b"L(x,0)"),
    (b"a = 1 -> a = 0 -> true", b"a = 1 -> a = 0 -> true"),
    (b"(a = 1 -> a = 0) -> true", b"(a = 1 -> a = 0) -> true"),
    (b"a = 1 -> (a = 0 -> true)", b"a = 1 -> a = 0 -> true"),
    (
        b"!!(a=0|a=1&false)&true",
        b"!!(a = 0 | a = 1 & false) & true",
    ),
    (b"true|false|(true|false)", b"true | false | (true | false)"),
    // Blanks and comments anywhere, and leading zeros.
    (
        b"# \xff &\n a\t=\r\n01&(P ( x,3 # x\n) )",
        b"a = 1 & P(x,3)",
    ),
    (
        b"R(1,x,0) & A(2,y_2,1) & C(1,x,2,y_2,3) & N(3,x) & O(4,y_2) & F(2,x)",
        b"R(1,x,0) & A(2,y_2,1) & C(1,x,2,y_2,3) & N(3,x) & O(4,y_2) & F(2,x)",
    ),
    // A sign on the left and on the right of each sign, with all brackets.
    (b"(true & false) & a = 1", b"true & false & a = 1"),
    (b"a = 1 & (true & false)", b"a = 1 & (true & false)"),
    (b"(true | false) & a = 1", b"(true | false) & a = 1"),
    (b"a = 1 & (true | false)", b"a = 1 & (true | false)"),
    (b"(true -> false) & a = 1", b"(true -> false) & a = 1"),
    (b"a = 1 & (true -> false)", b"a = 1 & (true -> false)"),
    (b"(true & false) | a = 1", b"true & false | a = 1"),
    (b"a = 1 | (true & false)", b"a = 1 | true & false"),
    (b"(true | false) | a = 1", b"true | false | a = 1"),
    (b"a = 1 | (true | false)", b"a = 1 | (true | false)"),
    (b"(true -> false) | a = 1", b"(true -> false) | a = 1"),
    (b"a = 1 | (true -> false)", b"a = 1 | (true -> false)"),
    (b"(true & false) -> a = 1", b"true & false -> a = 1"),
    (b"a = 1 -> (true & false)", b"a = 1 -> true & false"),
    (b"(true | false) -> a = 1", b"true | false -> a = 1"),
    (b"a = 1 -> (true | false)", b"a = 1 -> true | false"),
    (b"(true -> false) -> a = 1", b"(true -> false) -> a = 1"),
    (b"a = 1 -> (true -> false)", b"a = 1 -> true -> false"),
    // A `!` before each sign, and on both sides of it.
    (b"!(true & false)", b"!(true & false)"),
    (b"(!(!(a = 1))) & false", b"!!a = 1 & false"),
    (b"true & (!(!a = 1))", b"true & !!a = 1"),
    (b"!(true | false)", b"!(true | false)"),
    (b"(!(!(a = 1))) | false", b"!!a = 1 | false"),
    (b"true | (!(!a = 1))", b"true | !!a = 1"),
    (b"!(true -> false)", b"!(true -> false)"),
    (b"(!(!(a = 1))) -> false", b"!!a = 1 -> false"),
    (b"true -> (!(!a = 1))", b"true -> !!a = 1"),
];

static CRASH_FORMULAS: [(&[u8], &[u8]); 4] = [
    (b"y_2 = 1 -> x = 1", b"y_2 = 1 -> x = 1"),
    (b"!a=3&(x=02)", b"!a = 3 & x = 2"),
    (b"true & (false | true)", b"true & (false | true)"),
    (b"!(r = 0 -> !(x = 1))", b"!(r = 0 -> !x = 1)"),
];

/// Expressions: a sign on the left and on the right of each sign, with all brackets.
static EXPRESSIONS: [(&[u8], &[u8]); 18] = [
    (b"(1 + 2) + r", b"1 + 2 + r"),
    (b"r + (1 + 2)", b"r + (1 + 2)"),
    (b"(1 - 2) + r", b"1 - 2 + r"),
    (b"r + (1 - 2)", b"r + (1 - 2)"),
    (b"(1 * 2) + r", b"1 * 2 + r"),
    (b"r + (1 * 2)", b"r + 1 * 2"),
    (b"(1 + 2) - r", b"1 + 2 - r"),
    (b"r - (1 + 2)", b"r - (1 + 2)"),
    (b"(1 - 2) - r", b"1 - 2 - r"),
    (b"r - (1 - 2)", b"r - (1 - 2)"),
    (b"(1 * 2) - r", b"1 * 2 - r"),
    (b"r - (1 * 2)", b"r - 1 * 2"),
    (b"(1 + 2) * r", b"(1 + 2) * r"),
    (b"r * (1 + 2)", b"r * (1 + 2)"),
    (b"(1 - 2) * r", b"(1 - 2) * r"),
    (b"r * (1 - 2)", b"r * (1 - 2)"),
    (b"(1 * 2) * r", b"1 * 2 * r"),
    (b"r * (1 * 2)", b"r * (1 * 2)"),
];

static STATEMENTS: [(&[u8], &[u8]); 12] = [
    (b"r:=3;", b"r := 3;"),
    (b"y_2:=r;", b"y_2 := r;"),
    (b"r:=y_2;", b"r := y_2;"),
    (b"r:=cas(x,r,(2));", b"r := cas(x, r, 2);"),
    (b"mfence;", b"mfence;"),
    (b"sfence;", b"sfence;"),
    (b"flush x;", b"flush x;"),
    (b"flushopt y_2;", b"flushopt y_2;"),
    (b"mfence<a:=3,b:=a+1>;", b"mfence < a := 3, b := a + 1 >;"),
    (
        b"if r=1{[true]while r!=0{[true]r:=0;}[L(x,0)]x:=1;}else{[true]flush x;}",
        b"if r = 1 {\n    [true]\n    while r != 0 {\n      [true]\n      r := 0;\n    }\n    [L(x,0)]\n    x := 1;\n  } else {\n    [true]\n    flush x;\n  }",
    ),
    (b"if r = 1 { } else { }", b"if r = 1 {\n  }"),
    (
        b"if r = 1 { } else { [false] mfence; }",
        b"if r = 1 {\n  } else {\n    [false]\n    mfence;\n  }",
    ),
];

#[test]
fn formulas_have_their_spelling(rt: HostRuntime) -> Result<(), Fail> {
    let alloc = rt.alloc();
    for (text, spelling) in &ASSERTIONS {
        is_spelled(alloc, BEFORE_PRE, *text, *spelling, BEHIND_FORMULA)?;
    }
    for (text, spelling) in &CRASH_FORMULAS {
        is_spelled(alloc, BEFORE_CRASH, *text, *spelling, BEHIND_FORMULA)?;
    }
    Ok(())
}

#[test]
fn statements_have_their_lines(rt: HostRuntime) -> Result<(), Fail> {
    let alloc = rt.alloc();
    for (text, spelling) in &EXPRESSIONS {
        is_spelled(
            alloc,
            BEFORE_EXPRESSION,
            *text,
            *spelling,
            BEHIND_EXPRESSION,
        )?;
    }
    for (text, spelling) in &STATEMENTS {
        is_spelled(alloc, BEFORE_STATEMENT, *text, *spelling, BEHIND_STATEMENT)?;
    }
    Ok(())
}

/// An outline whose formulas are `true`, with its locations and scalars in another order, and its canonical text.
const MIXED: &[u8] =
    b"pierogi 1; values 3; register r of 2; location x = 0; auxiliary a; location y = 2; pre true; thread 1 { [true] } thread 2 { [true] }";

const CANONICAL: &[u8] =
    b"pierogi 1;\nvalues 3;\nlocation x = 0;\nlocation y = 2;\nregister r of 2;\nauxiliary a;\nthread 1 {\n  [true]\n}\nthread 2 {\n  [true]\n}\n";

#[test]
fn items_have_their_lines(rt: HostRuntime) -> Result<(), Fail> {
    let alloc = rt.alloc();
    let found = on(alloc, MIXED, |o| printed(alloc, o))?;
    agree(found.as_slice(), CANONICAL, MIXED)
}
