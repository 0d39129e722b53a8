//! Literals: an atom's number and a sign.

ghost use Rattle.std.specs.Prelude.{◌≡◌, ◌<◌, ◌≤◌, ◌^◌};
ghost use Rattle.pg_region.specs.Literal.{literal_of, word_of, negated, same};

use std::marker::Model;

/// A literal: an atom by its number, from 1 on, which is meant to be true or false. It takes one word. The numbers are those of
/// the atoms of an obligation; the packing is this project's own.
#[derive(Clone, Copy, Debug, Drop)]
pub struct Lit {
    word: u32,
}

impl Model for Lit {
    ghost use Rattle.std.specs.Prelude.{ℕ};
    ghost use Rattle.std.proofs.Common.{ap};
    ghost use Rattle.pg_region.specs.Literal.{Literal, literal_of, word_of, word_of-literal_of};
    ghost use Rattle.pg_region.specs.declared.literal.Lit.TheInside.{Inside};

    ghost Value = { Literal };

    ghost view = { λ l. literal_of l.word };

    ghost inverse = { λ l. record { word = word_of l } };

    ghost inverse_ok = { λ l _. let of : ℕ → Inside = λ n. record { word = n } in ap of (word_of-literal_of l.word) };
}

impl Lit {
    /// The literal that an atom is true, or false.
    pub fn of(atom: u32, positive: bool) -> Lit
        requires { (1 ≤ atom) × (atom < 2 ^ 31) }
        ensures { result ≡ record { atom = atom; positive = positive } }
    {
        Lit {
            word: packed(atom, positive),
        }
    }

    /// The number of the atom.
    pub fn atom(self) -> u32
        ensures { result ≡ self.atom }
    {
        unpacked(self.word).0
    }

    /// Whether the atom is meant to be true.
    pub fn positive(self) -> bool
        ensures { result ≡ self.positive }
    {
        unpacked(self.word).1
    }

    /// The literal of the same atom that is meant the other way round.
    pub fn negated(self) -> Lit
        ensures { result ≡ negated self }
    {
        if self.word % 2 == 1 {
            Lit {
                word: self.word - 1,
            }
        } else {
            Lit {
                word: self.word + 1,
            }
        }
    }

    /// Whether this is the other literal: their atoms and their signs are the same.
    pub fn is(self, other: Lit) -> bool
        ensures { result ≡ same self other }
    {
        self.word == other.word
    }

    /// The word that it takes: twice the number of the atom, and one more where it is meant to be true.
    pub fn word(self) -> u32
        ensures { result ≡ word_of self }
    {
        self.word
    }
}

/// The word of a literal.
fn packed(atom: u32, positive: bool) -> u32
    requires { atom < 2 ^ 31 }
    ensures word { result ≡ word_of (record { atom = atom; positive = positive }) }
    ensures again { literal_of result ≡ record { atom = atom; positive = positive } }
{
    2 * atom + u32::from(positive)
}

/// The atom and the sign of a word.
fn unpacked(word: u32) -> (u32, bool)
    ensures { literal_of word ≡ record { atom = result.0; positive = result.1 } }
{
    (word / 2, word % 2 == 1)
}
