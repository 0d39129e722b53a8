//! How many obligations outlines have.

use pg_cases::{agree, on};
use pg_obligations::Obligations;
use std::test::Fail;

/// Outlines with the number of their obligations: message passing; the same with a branch and a third location; one thread that
/// stores twice with a flush between; two threads on one location; and a loop that is empty.
static COUNTS: [(&[u8], u32); 5] = [
    (
        b"pierogi 1; values 2; location x = 0; location y = 0; register a of 2; register b of 2; pre !R(2,y,1); thread 1 { [true] x := 1; [L(x,1)] y := 1; [true] } thread 2 { [!C(2,y,1,x,0)] a := y; [a = 1 -> !R(2,x,0)] b := x; [a = 1 -> b = 1] }",
        24,
    ),
    (
        b"pierogi 1; values 2; location x = 0; location y = 0; location z = 0; register a of 2; pre !R(2,y,1) & !P(z,1); crash z = 1 -> x = 1; thread 1 { [true] x := 1; [L(x,1)] y := 1; [true] } thread 2 { [!C(2,y,1,x,0) & !P(z,1)] a := y; [(a = 1 -> !R(2,x,0)) & !P(z,1)] if a = 1 { [!R(2,x,0) & !P(z,1)] flush x; [!P(x,0)] z := 1; } [true] }",
        43,
    ),
    (
        b"pierogi 1; values 2; location x = 0; location y = 0; pre !P(y,1); crash y = 1 -> x = 1; thread 1 { [!P(y,1)] x := 1; [!P(y,1) & L(x,1) & F(1,x)] flush x; [!P(x,0)] y := 1; [!P(x,0)] }",
        9,
    ),
    (
        b"pierogi 1; values 2; location x = 0; location y = 0; register a of 2; pre !R(2,x,1) & !P(y,1); crash y = 1 -> x = 1; thread 1 { [true] x := 1; [true] } thread 2 { [!C(2,x,1,x,0) & !P(y,1)] a := x; [(a = 1 -> !R(2,x,0)) & !P(y,1)] flush x; [(a = 1 -> !P(x,0)) & !P(y,1)] y := a; [true] }",
        22,
    ),
    (
        b"pierogi 1; values 2; register a of 1; thread 1 { [true] while a = 0 { } [!a = 0] }",
        7,
    ),
];

#[test]
fn obligations_are_counted(rt: HostRuntime) -> Result<(), Fail> {
    let alloc = rt.alloc();
    for (text, wanted) in &COUNTS {
        let found = on(alloc, *text, |o| Ok(Obligations::of(o).count()))?;
        agree(found, *wanted, *text)?;
    }
    Ok(())
}
