//! Loading obligations on a region, layer by layer.

ghost use Rattle.std.specs.Prelude.{◌≡◌, ◌-◌, ◌<◌, ◌≤◌, ◌^◌, [], ◌↔◌, IsTrue, true, length, Some, None, MatchResult};
ghost use Rattle.pg_region.specs.Region.{RegionTable};
ghost use Rattle.pg_tables.specs.Steps.{IsStepOf};
ghost use Rattle.pg_obligations.specs.Obligations.{obligations};
ghost use Rattle.pg_layers.specs.Clauses.{layout_of, obligation};
ghost use Rattle.pg_layers.specs.Members.{IsObligationOf, step_in};
ghost use Rattle.pg_layers.specs.Needs.{enough_words, enough_spans, IsMostAtoms};
ghost use Rattle.pg_layers.specs.Layers.{left, IsLoaded, HasNoRoom, loaded_with};
ghost use Rattle.pg_layers.specs.Laid.{HasRoom, range_by};

use crate::atoms::{atoms_of, most_atoms, taken};
use crate::layers::{Laid, Layers, with_axioms, with_rules, with_top};
use crate::obligation::{crash, layout_of};
use pg_obligations::{Obligation, Obligations};
use pg_outline::Outline;
use pg_program::Step;
use pg_region::{ClauseRange, Full, Loaded, Region};
use std::marker::Model;

/// How much room the clauses of any obligation need, and how many atoms an obligation has at most.
#[derive(Clone, Copy, Debug, PartialEq, Eq)]
pub struct RegionNeeds {
    pub words: u32,
    pub spans: u32,
    pub atoms: u32,
}

/// Room for the axioms of both sides, the rules of a step and a top part, in either version of the language: so many words and
/// spans. What of them a region does not use is never touched.
const ENOUGH_WORDS: u32 = 546_668;

const ENOUGH_SPANS: u32 = 181_266;

/// Loads obligations of an outline on a region, one after the other, and leaves what the next one needs too. Contracts see the
/// outline, and what the last load left.
#[derive(Drop)]
pub struct Loader<'a> {
    outline: &'a Outline,
    laid: Option<Laid>,
    /// How many new atoms the expansion of the crash formula takes.
    crash_atoms: u32,
}

impl<'a> Model for Loader<'a> {
    ghost use Rattle.std.specs.Prelude.{◌≡◌, ◌≤◌};
    ghost use Rattle.pg_assertion.specs.Limits.{most_expansion_nodes};
    ghost use Rattle.std.specs.Coded.{codes};
    ghost use Rattle.pg_program.specs.contracts.syntax.Stmt as stmt;
    ghost use Rattle.pg_program.specs.contracts.point.Step as step;
    ghost use Rattle.pg_obligations.specs.contracts.obligation.Obligation as one;
    ghost use Rattle.pg_outline.specs.Codes.{view_code, crash_code};
    ghost use Rattle.pg_obligations.specs.Follow.{crash_of};
    ghost use Rattle.pg_layers.specs.Layers.{Loading};
    ghost use Rattle.pg_layers.specs.Laid.{AreKept, ruled_in, last_in};
    ghost use Rattle.pg_layers.specs.Top.{taken};

    ghost Value = { Loading };

    ghost coded = { Prim.hlevel (codes, stmt.the_row.coded, step.the_row.coded, one.the_row.coded, view_code, crash_code) };

    ghost view = { λ k. record { outline = k.outline.now; ruled = ruled_in k.laid; last = last_in k.laid } };

    ghost invariant = { λ k. AreKept k.outline.now k.laid × (k.crash_atoms ≡ taken (crash_of k.outline.now)) × (k.crash_atoms ≤ most_expansion_nodes) };
}

impl<'a> Loader<'a> {
    /// A loader of this outline's obligations, which has loaded nothing yet.
    pub fn of(outline: &'a Outline) -> Loader<'a>
        ensures { result ≡ record { outline = outline.now; ruled = None; last = None } }
    {
        Loader {
            outline,
            laid: None,
            crash_atoms: taken(crash(outline)),
        }
    }

    /// What is enough for each obligation: words and spans of a region, and atoms. Words and spans are those that the largest
    /// outline may need.
    pub fn needs(&self) -> RegionNeeds
        ensures words { result.words ≡ enough_words }
        ensures spans { result.spans ≡ enough_spans }
        ensures atoms { IsMostAtoms self.now.outline result.atoms }
    {
        RegionNeeds {
            words: ENOUGH_WORDS,
            spans: ENOUGH_SPANS,
            atoms: most_atoms(self.outline, self.crash_atoms),
        }
    }

    /// Lays the clauses of the obligation with a number, from 1 on, on a region, and tells where they lie. The region has the
    /// clauses that the last load of this loader left, and none before the first. `Full` is the answer where the region has less
    /// room than is enough, whatever lies there; and then nothing has changed.
    pub fn load(&mut self, i: u32, region: &mut Region) -> Result<Loaded, Full>
        requires number { (1 ≤ i) × (i ≤ length (obligations self.old.outline.program)) }
        requires laid { region.old.clauses ≡ left self.old }
        ensures { MatchResult result
            (λ loaded. (self.new ≡ loaded_with self.old (obligation self.old.outline i)) × IsLoaded self.old (obligation self.old.outline i) region.old region.new loaded)
            (λ full. HasNoRoom region.old × (self.new ≡ self.old) × (region.new ≡ region.old)) }
    {
        if !has_room(region) {
            return Err(Full);
        }
        let o = self.outline;
        let _made = o.program();
        let ob = Obligations::of(o).shape(i);
        let layout = layout_of(o);
        let based = with_axioms(o, &layout, self.laid, region);
        let layers = with_rules(o, &layout, based, step_of(ob), region);
        with_top(o, &layout, &layers, ob, region);
        let loaded = Loaded {
            range: range_of(&layers, ob, region.clauses()),
            atoms: atoms_of(o, &layout, self.crash_atoms, ob),
        };
        self.laid = Some(Laid { layers, last: ob });
        Ok(loaded)
    }
}

/// Whether a region has enough words and spans, the spare ones and those of its clauses together.
fn has_room(region: &Region) -> bool
    ensures yes { IsTrue result → HasRoom region.now }
    ensures no { (IsTrue result → ⊥) → HasNoRoom region.now }
{
    let words = u64::from(region.spare_words()) + u64::from(region.words());
    let spans = u64::from(region.spare_spans()) + u64::from(region.clauses());
    words >= u64::from(ENOUGH_WORDS) && spans >= u64::from(ENOUGH_SPANS)
}

/// The step of an obligation, if it has one.
fn step_of(ob: Obligation) -> Option<Step>
    ensures { result ≡ step_in ob }
{
    match ob {
        Obligation::Fresh | Obligation::Entry(_) | Obligation::EntryCrash => None,
        Obligation::Local(step) | Obligation::Crash(step) | Obligation::Interfere(step, _) => {
            Some(step)
        }
    }
}

/// Where the parts of an obligation lie.
fn range_of(k: &Layers, ob: Obligation, top_to: u32) -> ClauseRange
    ensures range { result ≡ range_by k.now top_to (step_in ob) }
    ensures few { top_to < 2 ^ 32 }
{
    match step_of(ob) {
        None => ClauseRange {
            top_from: k.rules_to,
            top_to,
            rules_from: k.middle,
            rules_to: k.middle,
            axioms_from: 0,
            axioms_to: k.middle,
        },
        Some(_) => ClauseRange {
            top_from: k.rules_to,
            top_to,
            rules_from: k.base_to,
            rules_to: k.rules_to,
            axioms_from: 0,
            axioms_to: k.base_to,
        },
    }
}
