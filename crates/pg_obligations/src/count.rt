//! How many obligations there are, part by part of the list.

ghost use Rattle.std.specs.Prelude.{◌≡◌, ℕ, ◌+◌, ◌*◌, ◌<◌, ◌≤◌, length};
ghost use Rattle.std.specs.List.{flat_map, range_with_len};
ghost use Rattle.pg_program.specs.Limits.{most_points};
ghost use Rattle.pg_program.specs.Program.{points};
ghost use Rattle.pg_obligations.specs.Obligations.{threads_of, against, of_step, of_point, of_thread, obligations};

use pg_program::{PointId, Program, Step};

/// All obligations of a program.
pub fn of_program(p: &Program) -> u32
    ensures { result ≡ length (obligations p.now) }
{
    2 + u32::from(p.threads()) + of_threads(p)
}

/// Those of all steps.
fn of_threads(p: &Program) -> u32
    ensures count { result ≡ length (flat_map (of_thread p.now) (threads_of p.now)) }
    ensures few { result ≤ 33_280 }
{
    let mut count = 0;
    for t in 1..p.threads() + 1 {
        count += of_thread(p, t);
    }
    count
}

fn of_thread(p: &Program, t: u8) -> u32
    requires { (1 ≤ t) × (t ≤ length p.now.threads) }
    ensures count { result ≡ length (of_thread p.now t) }
    ensures few { result ≤ 8_320 }
{
    let mut count = 0;
    for k in 1..p.points(t) + 1 {
        count += of_point(p, t, k);
    }
    count
}

fn of_point(p: &Program, t: u8, k: u8) -> u32
    requires thread { (1 ≤ t) × (t ≤ length p.now.threads) }
    requires point { (1 ≤ k) × (k ≤ points p.now t) }
    ensures count { result ≡ length (of_point p.now t k) }
    ensures few { result ≤ 260 }
{
    let at = PointId {
        thread: t,
        point: k,
    };
    of_steps(p, p.steps(at))
}

fn of_steps(p: &Program, steps: &[Step]) -> u32
    requires { length steps.now ≤ 2 }
    ensures count { result ≡ length (flat_map (of_step p.now) steps.now) }
    ensures few { result ≤ 130 * length steps.now }
{
    let mut count = 0;
    for step in steps {
        count += of_step(p, *step);
    }
    count
}

fn of_step(p: &Program, step: Step) -> u32
    ensures count { result ≡ length (of_step p.now step) }
    ensures few { result ≤ 130 }
{
    let mut count = 2;
    for u in 1..p.threads() + 1 {
        count += against(p, step, u);
    }
    count
}

fn against(p: &Program, step: Step, u: u8) -> u32
    requires { (1 ≤ u) × (u ≤ length p.now.threads) }
    ensures count { result ≡ length (against p.now step u) }
    ensures few { result ≤ most_points }
{
    if u == step.thread {
        0
    } else {
        u32::from(p.points(u))
    }
}
