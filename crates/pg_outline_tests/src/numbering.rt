//! The numbers of atoms over 1 scalar, 2 locations, 2 values and 2 threads: 2 + 4 + 8 + 4 + 8 + 32 + 4 + 4 + 4 atoms.

ghost use Rattle.std.specs.Prelude.{◌≡◌};

use crate::meanings::layout_of;
use pg_assertion::{Formula, Numbering, Side};
use pg_assertion_text::print_formula;
use pg_cases::{agree, on};
use pg_program::Program;
use std::alloc::Global;
use std::test::Fail;

/// The first and the last atom of each kind, and some between them.
static NUMBERS: [(u32, &[u8]); 28] = [
    (1, b"r = 0"),
    (2, b"r = 1"),
    (3, b"L(x,0)"),
    (4, b"L(x,1)"),
    (5, b"L(y,0)"),
    (6, b"L(y,1)"),
    (7, b"R(1,x,0)"),
    (9, b"R(1,y,0)"),
    (11, b"R(2,x,0)"),
    (14, b"R(2,y,1)"),
    (15, b"P(x,0)"),
    (18, b"P(y,1)"),
    (19, b"A(1,x,0)"),
    (26, b"A(2,y,1)"),
    (27, b"C(1,x,0,x,0)"),
    (28, b"C(1,x,0,x,1)"),
    (29, b"C(1,x,0,y,0)"),
    (31, b"C(1,x,1,x,0)"),
    (35, b"C(1,y,0,x,0)"),
    (43, b"C(2,x,0,x,0)"),
    (58, b"C(2,y,1,y,1)"),
    (59, b"N(1,x)"),
    (62, b"N(2,y)"),
    (63, b"O(1,x)"),
    (64, b"O(1,y)"),
    (66, b"O(2,y)"),
    (67, b"F(1,x)"),
    (70, b"F(2,y)"),
];

/// The number of an atom under any numbering.
fn number_under<T, N: Numbering<T>>(numbers: &N, a: &T, side: Side) -> u32
    requires { N.has numbers.now a.now }
    ensures { result ≡ N.number_on numbers.now a.now side }
{
    numbers.number_at(a, side)
}

/// Whether the atom with this number has this spelling, and has the number on both sides.
#[tactic(auto, using(crate::proofs::Atoms::names_of))]
fn is_numbered(alloc: Global, p: &Program, n: u32, spelling: &[u8]) -> Result<bool, Fail> {
    let layout = layout_of(p)?;
    if n < 1 || layout.atoms() < n {
        return Ok(false);
    }
    let a = layout.atom(n);
    let mut text = Vec::new(alloc);
    print_formula(&Formula::Atom(a), p.names(), &mut text)?;
    Ok(
        text.as_slice() == spelling
            && layout.number(&a) == n
            && number_under(&layout, &a, Side::Before) == n
            && number_under(&layout, &a, Side::After) == n + layout.atoms(),
    )
}

const DECLARED: &[u8] =
    b"pierogi 1; values 2; location x = 0; location y = 0; register r of 1; thread 1 { [true] } thread 2 { [true] }";

#[test]
fn atoms_have_their_numbers(rt: HostRuntime) -> Result<(), Fail> {
    let alloc = rt.alloc();
    on(alloc, DECLARED, |o| {
        agree(layout_of(o.program())?.atoms(), 70, DECLARED)?;
        for (n, spelling) in &NUMBERS {
            let found = is_numbered(alloc, o.program(), *n, *spelling)?;
            agree(found, true, *spelling)?;
        }
        Ok(())
    })
}
