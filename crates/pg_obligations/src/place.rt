//! The obligation at a place of the list, which is found without making the list. Each function looks in a part of it.

ghost use Rattle.std.specs.Prelude.{◌≡◌, ℕ, ◌+◌, ◌-◌, ◌<◌, ◌≤◌, length, map, Some, slice_get};
ghost use Rattle.std.specs.List.{flat_map, range_with_len};
ghost use Rattle.pg_program.specs.Program.{points};
ghost use Rattle.pg_obligations.specs.Obligations.{threads_of, against, of_step, of_point, of_thread, obligations};
ghost use Rattle.pg_obligations.specs.Found.{Finds};

use crate::obligation::Obligation;
use pg_program::{PointId, Program, Step};

/// The obligation at a place of a part of the list, or how far behind that part the place is.
#[derive(Clone, Copy)]
pub enum Found {
    Here(Obligation),
    Beyond(u32),
}

/// The obligation with a number, from 1 on.
pub fn obligation_at(p: &Program, i: u32) -> Obligation
    requires { (1 ≤ i) × (i ≤ length (obligations p.now)) }
    ensures { slice_get (obligations p.now) (i - 1) ≡ Some result }
{
    if i == 1 {
        return Obligation::Fresh;
    }
    let left = match in_entries(p, i - 2) {
        Found::Here(obligation) => return obligation,
        Found::Beyond(left) => left,
    };
    if left == 0 {
        return Obligation::EntryCrash;
    }
    match in_threads(p, left - 1) {
        Found::Here(obligation) => obligation,
        Found::Beyond(_) => unreachable!(),
    }
}

/// Among those of the threads' entries.
fn in_entries(p: &Program, place: u32) -> Found
    ensures { Finds (map (λ t. Obligation.Entry t) (threads_of p.now)) place result }
{
    let threads = p.threads();
    if place < u32::from(threads) {
        Found::Here(Obligation::Entry(place as u8 + 1))
    } else {
        Found::Beyond(place - u32::from(threads))
    }
}

/// Among those of all steps.
fn in_threads(p: &Program, place: u32) -> Found
    ensures { Finds (flat_map (of_thread p.now) (threads_of p.now)) place result }
{
    let mut left = place;
    for t in 1..p.threads() + 1 {
        match in_thread(p, t, left) {
            Found::Here(obligation) => return Found::Here(obligation),
            Found::Beyond(rest) => left = rest,
        }
    }
    Found::Beyond(left)
}

fn in_thread(p: &Program, t: u8, place: u32) -> Found
    requires { (1 ≤ t) × (t ≤ length p.now.threads) }
    ensures { Finds (of_thread p.now t) place result }
{
    let mut left = place;
    for k in 1..p.points(t) + 1 {
        match in_point(p, t, k, left) {
            Found::Here(obligation) => return Found::Here(obligation),
            Found::Beyond(rest) => left = rest,
        }
    }
    Found::Beyond(left)
}

fn in_point(p: &Program, t: u8, k: u8, place: u32) -> Found
    requires thread { (1 ≤ t) × (t ≤ length p.now.threads) }
    requires point { (1 ≤ k) × (k ≤ points p.now t) }
    ensures { Finds (of_point p.now t k) place result }
{
    let at = PointId {
        thread: t,
        point: k,
    };
    in_steps(p, p.steps(at), place)
}

fn in_steps(p: &Program, steps: &[Step], place: u32) -> Found
    ensures { Finds (flat_map (of_step p.now) steps.now) place result }
{
    let mut left = place;
    for step in steps {
        match in_step(p, *step, left) {
            Found::Here(obligation) => return Found::Here(obligation),
            Found::Beyond(rest) => left = rest,
        }
    }
    Found::Beyond(left)
}

fn in_step(p: &Program, step: Step, place: u32) -> Found
    ensures { Finds (of_step p.now step) place result }
{
    if place == 0 {
        return Found::Here(Obligation::Local(step));
    }
    if place == 1 {
        return Found::Here(Obligation::Crash(step));
    }
    in_others(p, step, place - 2)
}

fn in_others(p: &Program, step: Step, place: u32) -> Found
    ensures { Finds (flat_map (against p.now step) (threads_of p.now)) place result }
{
    let mut left = place;
    for u in 1..p.threads() + 1 {
        match in_points(p, step, u, left) {
            Found::Here(obligation) => return Found::Here(obligation),
            Found::Beyond(rest) => left = rest,
        }
    }
    Found::Beyond(left)
}

fn in_points(p: &Program, step: Step, u: u8, place: u32) -> Found
    requires { (1 ≤ u) × (u ≤ length p.now.threads) }
    ensures { Finds (against p.now step u) place result }
{
    if u == step.thread {
        return Found::Beyond(place);
    }
    let points = p.points(u);
    if place < u32::from(points) {
        let point = place as u8 + 1;
        Found::Here(Obligation::Interfere(step, PointId { thread: u, point }))
    } else {
        Found::Beyond(place - u32::from(points))
    }
}
