//! That of any two sets of values of a location the one contains the other.

ghost use Rattle.std.specs.Prelude.{◌≡◌, ℕ, ◌+◌, ◌*◌, ◌<◌, ◌≤◌, ◌∷◌, []};
ghost use Rattle.pg_assertion.specs.Layout.{IsAtom};
ghost use Rattle.pg_views.specs.Laws.{is_in};
ghost use Rattle.pg_tables.specs.Table.{IsOneOf};
ghost use Rattle.pg_axioms.specs.Axioms.{rule, each_pair, value_sets, not_both_apart};
ghost use Rattle.pg_axioms.specs.Places.{set_count, set_at, per_place};

use pg_assertion::{Layout, Side, ViewAtom};
use pg_region::ClauseSink;
use pg_tables::{PerValue, Rows, Setting, WhereDifferent, WhereLess, each, implies, on};

/// Of each two of the sets of values of a location no two values are both apart.
#[derive(Clone, Copy)]
pub struct SetsNest {
    pub side: Side,
}

impl Rows<((), u8)> for SetsNest {
    ghost rows = { λ l c i. each_pair (value_sets l) (not_both_apart l c.side i.1) };

    ghost fits = { λ s c i. i.1 < s.layout.locations };

    fn offer_at<S: ClauseSink>(
        &self,
        i: ((), u8),
        setting: &Setting,
        into: &mut S,
    ) -> Result<(), S::Fault> {
        let row = PerValue(PerValue(WhereDifferent(NotBothApart { side: self.side })));
        PerPlace(PerPlace(WhereLess(row))).offer_at(i, setting, into)
    }
}

/// A table for each set of values of a location, by its place.
#[derive(Drop)]
struct PerPlace<F>(F);

impl<I: Copy, F: Rows<(I, u8)>> Rows<I> for PerPlace<F> {
    ghost rows = { λ l c i. per_place l (λ k. F.rows l c.0 (i, k)) };

    ghost fits = { λ s c i. (k : ℕ) → IsOneOf 0 (set_count s.layout) k → F.fits s c.0 (i, k) };

    #[tactic(auto, unfolding(crate::specs::Places::per_place))]
    fn offer_at<S: ClauseSink>(
        &self,
        i: I,
        setting: &Setting,
        into: &mut S,
    ) -> Result<(), S::Fault> {
        let count = 2 * setting.layout.threads() as u8 + 1;
        each(&self.0, i, 0, count, setting, into)
    }
}

// The atom that a value is in the set at a place.
fn in_set(layout: &Layout, place: u8, x: u8, v: u8) -> ViewAtom
    requires place { place < set_count layout.now }
    requires location { x < layout.now.locations }
    requires value { v < layout.now.domain }
    ensures is { result ≡ is_in (set_at layout.now place) x v }
    ensures atom { IsAtom layout.now result }
{
    let threads = layout.threads() as u8;
    if place < threads {
        ViewAtom::Read { t: place + 1, x, v }
    } else if place == threads {
        ViewAtom::Persist { x, v }
    } else {
        ViewAtom::Async {
            t: place - threads,
            x,
            v,
        }
    }
}

/// A location, the places of two sets, and two values.
type TwoSets = ((((((), u8), u8), u8), u8), u8);

/// A value of the one set and another of the other are not both apart.
#[derive(Clone, Copy)]
struct NotBothApart {
    side: Side,
}

impl Rows<TwoSets> for NotBothApart {
    ghost rows = { λ l c i. rule c.side (is_in (set_at l i.0.0.0.1) i.0.0.0.0.1 i.0.1 ∷ is_in (set_at l i.0.0.1) i.0.0.0.0.1 i.1 ∷ []) (is_in (set_at l i.0.0.0.1) i.0.0.0.0.1 i.1 ∷ is_in (set_at l i.0.0.1) i.0.0.0.0.1 i.0.1 ∷ []) ∷ [] };

    ghost fits = { λ s c i. (i.0.0.0.1 < set_count s.layout) × (i.0.0.1 < set_count s.layout) × (i.0.0.0.0.1 < s.layout.locations) × (i.0.1 < s.layout.domain) × (i.1 < s.layout.domain) };

    fn offer_at<S: ClauseSink>(
        &self,
        i: TwoSets,
        setting: &Setting,
        into: &mut S,
    ) -> Result<(), S::Fault> {
        let (((((_, x), a), b), v), w) = i;
        let layout = &setting.layout;
        let v_in_a = on(in_set(layout, a, x, v), self.side);
        let w_in_b = on(in_set(layout, b, x, w), self.side);
        let w_in_a = on(in_set(layout, a, x, w), self.side);
        let v_in_b = on(in_set(layout, b, x, v), self.side);
        [implies(&[v_in_a, w_in_b], &[w_in_a, v_in_b])].offer_at((), setting, into)
    }
}
