//! The obligations of an outline.

ghost use Rattle.std.specs.Prelude.{◌≡◌, ◌-◌, ◌≤◌, length, Some, slice_get};
ghost use Rattle.pg_obligations.specs.Obligations.{obligations};

use crate::count;
use crate::obligation::Obligation;
use crate::place::obligation_at;
use pg_outline::Outline;
use std::marker::Model;

/// The obligations of an outline, by their numbers from 1. Contracts see the outline.
#[derive(Drop)]
pub struct Obligations<'a> {
    outline: &'a Outline,
}

impl<'a> Model for Obligations<'a> {
    ghost use Rattle.std.specs.Coded.{codes};
    ghost use Rattle.pg_program.specs.contracts.syntax.Stmt as stmt;
    ghost use Rattle.pg_outline.specs.Codes.{view_code, crash_code};
    ghost use Rattle.pg_outline.specs.Outline.{OutlineTable};

    ghost Value = { OutlineTable };

    ghost coded = { Prim.hlevel (codes, stmt.the_row.coded, view_code, crash_code) };

    ghost view = { λ o. o.outline.now };
}

impl<'a> Obligations<'a> {
    /// The obligations of this outline.
    pub fn of(outline: &'a Outline) -> Obligations<'a>
        ensures { result ≡ outline.now }
    {
        Obligations { outline }
    }

    /// How many there are.
    pub fn count(&self) -> u32
        ensures { result ≡ length (obligations self.now.program) }
    {
        count::of_program(self.outline.program())
    }

    /// The obligation with a number. They come in this order: `Fresh`; `Entry` of each thread; `EntryCrash`; and then, thread by
    /// thread, point by point and step by step, of a test the step that it takes where it holds first, `Local`, `Crash`, and
    /// `Interfere` with each point of each other thread, its end too.
    pub fn shape(&self, i: u32) -> Obligation
        requires { (1 ≤ i) × (i ≤ length (obligations self.now.program)) }
        ensures { slice_get (obligations self.now.program) (i - 1) ≡ Some result }
    {
        obligation_at(self.outline.program(), i)
    }
}
