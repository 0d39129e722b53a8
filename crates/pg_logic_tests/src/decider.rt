//! Outcomes of small sets of clauses, worked out by hand, and of many more beside all assignments.

ghost use Rattle.std.specs.Prelude.{◌≡◌, ◌≤◌, ◌<◌, ◌^◌, length, All, IfOk, IfSome};
ghost use Rattle.pg_region.specs.Range.{listed, Fits};
ghost use Rattle.pg_decider.specs.Leaf.{IsLog};
ghost use Rattle.pg_decider.specs.Outcome.{IfClosed};

use pg_cases::agree;
use pg_decider::{TreeLog, TreeNode, Verdict, Workspace};
use pg_region::{ClauseRange, ClauseReader, Lit, Loaded, Region};
use std::alloc::Global;
use std::test::Fail;

/// Literals by their atoms' numbers, negative where they are meant to be false.
type Numbers = &'static [i32];

/// Clauses over atoms up to a greatest one, and the verdict within a budget. After `Closed`, the split literal of each node of the
/// tree in preorder, and 0 at each leaf; after `Model`, the atoms that are true.
struct Case {
    atoms: u32,
    clauses: &'static [Numbers],
    budget: u32,
    verdict: Verdict,
    shown: Numbers,
}

static CASES: [Case; 13] = [
    // no clause, and one without a literal
    Case {
        atoms: 2,
        clauses: &[],
        budget: 1,
        verdict: Verdict::Model(1),
        shown: &[],
    },
    Case {
        atoms: 2,
        clauses: &[&[1, 2], &[]],
        budget: 1,
        verdict: Verdict::Closed(1),
        shown: &[0],
    },
    // a case split
    Case {
        atoms: 2,
        clauses: &[&[1, 2], &[1, -2], &[-1, 2], &[-1, -2]],
        budget: 3,
        verdict: Verdict::Closed(3),
        shown: &[1, 0, 0],
    },
    Case {
        atoms: 2,
        clauses: &[&[1, 2], &[1, -2], &[-1, 2], &[-1, -2]],
        budget: 2,
        verdict: Verdict::Spent,
        shown: &[],
    },
    // the first child is closed, and the second is a model
    Case {
        atoms: 3,
        clauses: &[&[1, 2], &[-1, 3], &[-1, -3]],
        budget: 9,
        verdict: Verdict::Model(3),
        shown: &[2],
    },
    // two clauses with a false literal and two literals without a value: the first one is split
    Case {
        atoms: 6,
        clauses: &[
            &[1],
            &[-1, 2, 3],
            &[-1, 4, 5],
            &[-2, 6],
            &[-2, -6],
            &[-3, 6],
            &[-3, -6],
        ],
        budget: 9,
        verdict: Verdict::Closed(3),
        shown: &[2, 0, 0],
    },
    // the later clause has fewer literals without a value
    Case {
        atoms: 6,
        clauses: &[
            &[1],
            &[-1, 2, 3, 4],
            &[-1, 5, 2],
            &[-5, 6],
            &[-5, -6],
            &[-2, 6],
            &[-2, -6],
        ],
        budget: 9,
        verdict: Verdict::Closed(3),
        shown: &[5, 0, 0],
    },
    // a literal that stands twice counts once: a tie
    Case {
        atoms: 6,
        clauses: &[
            &[1],
            &[-1, 2, 2, 3],
            &[-1, 4, 5],
            &[-2, 6],
            &[-2, -6],
            &[-3, 6],
            &[-3, -6],
        ],
        budget: 3,
        verdict: Verdict::Closed(3),
        shown: &[2, 0, 0],
    },
    Case {
        atoms: 1,
        clauses: &[&[1, 1], &[-1, -1]],
        budget: 1,
        verdict: Verdict::Closed(1),
        shown: &[0],
    },
    // opposite literals are two literals without a value
    Case {
        atoms: 6,
        clauses: &[
            &[1],
            &[-1, 3, 4, 5],
            &[-1, 2, -2],
            &[-2, 6],
            &[-2, -6],
            &[2, 6],
            &[2, -6],
        ],
        budget: 3,
        verdict: Verdict::Closed(3),
        shown: &[2, 0, 0],
    },
    Case {
        atoms: 2,
        clauses: &[&[2, -2]],
        budget: 2,
        verdict: Verdict::Model(2),
        shown: &[2],
    },
    // a model behind the budget
    Case {
        atoms: 2,
        clauses: &[&[2, -2]],
        budget: 1,
        verdict: Verdict::Spent,
        shown: &[],
    },
    // atoms without a value are false
    Case {
        atoms: 5,
        clauses: &[&[-4, 2], &[4]],
        budget: 1,
        verdict: Verdict::Model(1),
        shown: &[2, 4],
    },
];

/// The literal with a number, where its atom is one of the first `atoms`.
fn literal(number: i32, atoms: u32) -> Option<Lit>
    ensures { IfSome result (λ l. l.atom ≤ atoms) }
{
    let atom = number.unsigned_abs();
    if atom < 1 || atom > atoms || atom >= 2147483648 {
        return None;
    }
    Some(Lit::of(atom, number > 0))
}

/// The clause with these literals.
fn clause(alloc: Global, atoms: u32, numbers: &[i32]) -> Result<Vec<Lit>, Fail>
    ensures { IfOk result (λ c. All (λ l. l.atom ≤ atoms) c.items) }
{
    let mut clause = Vec::new(alloc);
    for number in numbers {
        match literal(*number, atoms) {
            Some(literal) => clause.push(literal)?,
            None => return Err(Fail::new("an atom has another number")),
        }
    }
    Ok(clause)
}

/// Pushes a clause.
fn add(alloc: Global, region: &mut Region, atoms: u32, numbers: &[i32]) -> Result<(), Fail>
    requires { All (All (λ l. l.atom ≤ atoms)) region.old.clauses }
    ensures { All (All (λ l. l.atom ≤ atoms)) region.new.clauses }
{
    let clause = clause(alloc, atoms, numbers)?;
    match region.push(&clause) {
        Ok(_) => Ok(()),
        Err(_) => Err(Fail::new("the region is full")),
    }
}

/// All clauses of a region.
fn whole(region: &Region, atoms: u32) -> Loaded
    requires few { atoms < 2 ^ 31 }
    requires over { All (All (λ l. l.atom ≤ atoms)) region.now.clauses }
    ensures fits { Fits result region.now.clauses }
    ensures atoms { result.atoms ≡ atoms }
    ensures clauses { listed region.now.clauses result.range ≡ region.now.clauses }
{
    let count = region.clauses();
    let range = ClauseRange {
        top_from: 0,
        top_to: count,
        rules_from: 0,
        rules_to: 0,
        axioms_from: 0,
        axioms_to: 0,
    };
    Loaded { range, atoms }
}

/// A region with these clauses.
fn laid(alloc: Global, atoms: u32, clauses: &[Numbers]) -> Result<Region, Fail>
    ensures { IfOk result (λ r. All (All (λ l. l.atom ≤ atoms)) r.clauses) }
{
    let mut region = Region::make(alloc, 64, 16)?;
    for numbers in clauses {
        add(alloc, &mut region, atoms, numbers)?;
    }
    Ok(region)
}

/// What clauses were decided with, the verdict, and how often a clause was looked at.
#[derive(Drop)]
struct Decided {
    workspace: Workspace,
    log: TreeLog,
    verdict: Verdict,
    looks: u64,
}

/// Decides all clauses of a region.
fn decide(alloc: Global, region: &Region, atoms: u32, budget: u32) -> Result<Decided, Fail>
    requires over { All (All (λ l. l.atom ≤ atoms)) region.now.clauses }
    ensures few { IfOk result (λ _. atoms < 2 ^ 31) }
    ensures atoms { IfOk result (λ d. d.workspace.atoms ≡ atoms) }
    ensures clauses { IfOk result (λ d. d.workspace.clauses ≡ length region.now.clauses) }
    ensures closed { IfOk result (λ d. IfClosed d.verdict (IsLog region.now.clauses d.log.lines)) }
{
    if atoms >= 2147483648 || budget < 1 {
        return Err(Fail::new("a case has other limits"));
    }
    let mut workspace = Workspace::make(alloc, atoms, region.clauses())?;
    let mut log = TreeLog::make(alloc, budget)?;
    let mut reader = ClauseReader::of(region, whole(region, atoms));
    let verdict = workspace.decide(&mut reader, budget, &mut log);
    Ok(Decided {
        workspace,
        log,
        verdict,
        looks: reader.looks(),
    })
}

/// The number of a literal in a table.
fn number_of(literal: Lit) -> i32 {
    let atom = i32::try_from(literal.atom()).unwrap_or(0);
    if literal.positive() { atom } else { -atom }
}

/// Whether the nodes of a log in preorder are these: the number of the split literal, and 0 at a leaf.
fn are_nodes(log: &TreeLog, shown: &[i32]) -> bool {
    if log.len() as usize != shown.len() {
        return false;
    }
    for i in 0..log.len() {
        let number = match log.node(i + 1) {
            TreeNode::Split(literal) => number_of(literal),
            TreeNode::Leaf => 0,
        };
        if number != shown[i as usize] {
            return false;
        }
    }
    true
}

/// Whether the atoms that are true in a model are these.
fn are_truths(workspace: &Workspace, atoms: u32, shown: &[i32]) -> bool
    requires { atoms ≤ workspace.now.atoms }
{
    for atom in 1..=atoms {
        let is_shown = shown.contains(&i32::try_from(atom).unwrap_or(0));
        if workspace.truth(atom) != is_shown {
            return false;
        }
    }
    true
}

/// Whether a verdict shows this: the nodes of a closed tree, or the atoms that are true in a model.
fn shows(decided: &Decided, atoms: u32, shown: &[i32]) -> bool
    requires { atoms ≤ decided.now.workspace.atoms }
{
    match decided.verdict {
        Verdict::Closed(_) => are_nodes(&decided.log, shown),
        Verdict::Model(_) => are_truths(&decided.workspace, atoms, shown),
        Verdict::Spent => shown.is_empty(),
    }
}

/// Whether clauses were looked at so few times: once each for their first watches; and at each node once each, and once for each
/// literal.
fn are_few_looks(region: &Region, decided: &Decided, budget: u32) -> bool {
    let clauses = u64::from(region.clauses());
    let nodes = match decided.verdict {
        Verdict::Closed(nodes) | Verdict::Model(nodes) => nodes,
        Verdict::Spent => budget,
    };
    let each = clauses + u64::from(region.words());
    decided.looks <= clauses.saturating_add(u64::from(nodes).saturating_mul(each))
}

/// Passes where the clauses of a case were decided as is wanted.
fn is_wanted(region: &Region, decided: &Decided, case: &Case) -> Result<(), Fail>
    requires { case.now.atoms ≤ decided.now.workspace.atoms }
{
    agree(decided.verdict, case.verdict, b"a verdict")?;
    let few = are_few_looks(region, decided, case.budget);
    let shown = shows(decided, case.atoms, case.shown);
    agree((few, shown), (true, true), b"looks, and what is shown")
}

/// Passes where the clauses of a case are decided as is wanted.
fn is_decided(alloc: Global, case: &Case) -> Result<(), Fail> {
    let region = laid(alloc, case.atoms, case.clauses)?;
    let decided = decide(alloc, &region, case.atoms, case.budget)?;
    is_wanted(&region, &decided, case)
}

#[test]
fn small_sets_of_clauses_are_decided(rt: HostRuntime) -> Result<(), Fail> {
    let alloc = rt.alloc();
    for case in &CASES {
        is_decided(alloc, case)?;
    }
    Ok(())
}

/// Passes where so many clauses close each leaf of a closed tree, and 0 stands for each node that splits.
fn are_leaves(
    region: &Region,
    atoms: u32,
    workspace: &mut Workspace,
    log: &TreeLog,
    wanted: &[usize],
) -> Result<(), Fail>
    requires few { atoms < 2 ^ 31 }
    requires over { All (All (λ l. l.atom ≤ atoms)) region.now.clauses }
    requires atoms { atoms ≤ workspace.old.atoms }
    requires clauses { length region.now.clauses ≤ workspace.old.clauses }
    requires log { IsLog region.now.clauses log.now.lines }
{
    if log.len() as usize != wanted.len() {
        return Err(Fail::new("there are more nodes, or fewer"));
    }
    let loaded = whole(region, atoms);
    for i in 0..log.len() {
        let found = match log.node(i + 1) {
            TreeNode::Split(_) => 0,
            TreeNode::Leaf => workspace.leaf(region, loaded, log, i + 1).len(),
        };
        agree(found, wanted[i as usize], b"clauses of a leaf")?;
    }
    Ok(())
}

/// Passes where a tree is closed, and so many clauses close each of its leaves.
fn is_closed(
    region: &Region,
    atoms: u32,
    decided: &mut Decided,
    wanted: &[usize],
) -> Result<(), Fail>
    requires few { atoms < 2 ^ 31 }
    requires over { All (All (λ l. l.atom ≤ atoms)) region.now.clauses }
    requires atoms { atoms ≤ decided.old.workspace.atoms }
    requires clauses { length region.now.clauses ≤ decided.old.workspace.clauses }
    requires closed { IfClosed decided.old.verdict (IsLog region.now.clauses decided.old.log.lines) }
{
    match decided.verdict {
        Verdict::Closed(_) => {
            are_leaves(region, atoms, &mut decided.workspace, &decided.log, wanted)
        }
        _ => Err(Fail::new("a tree is not closed")),
    }
}

/// The first leaf needs two clauses, and the second four: `1`; `not 1, 2, 3`; and the last two.
#[test]
fn leaves_are_closed_by_few_clauses(rt: HostRuntime) -> Result<(), Fail> {
    let region = laid(rt.alloc(), 6, CASES[5].clauses)?;
    let mut decided = decide(rt.alloc(), &region, 6, 3)?;
    is_closed(&region, 6, &mut decided, &[0, 2, 4])
}

/// Pushes the clauses `not 2, 1`; `not 3, 2`; and so on up to a last atom, and the last atom: read backwards all atoms follow.
fn link(alloc: Global, region: &mut Region, atoms: u32) -> Result<(), Fail>
    requires { All (All (λ l. l.atom ≤ atoms)) region.old.clauses }
    ensures { All (All (λ l. l.atom ≤ atoms)) region.new.clauses }
{
    let last = i32::try_from(atoms).unwrap_or(0);
    for k in 1..last {
        add(alloc, region, atoms, &[-(k + 1), k])?;
    }
    add(alloc, region, atoms, &[last])
}

/// A region with these clauses.
fn chain(alloc: Global, atoms: u32) -> Result<Region, Fail>
    ensures { IfOk result (λ r. All (All (λ l. l.atom ≤ atoms)) r.clauses) }
{
    let mut region = Region::make(alloc, 400, 200)?;
    link(alloc, &mut region, atoms)?;
    Ok(region)
}

/// How many atoms are true in a model.
fn count_of(workspace: &Workspace, atoms: u32) -> u32
    requires { atoms ≤ workspace.now.atoms }
{
    let mut count: u32 = 0;
    for atom in 1..=atoms {
        count = count.saturating_add(u32::from(workspace.truth(atom)));
    }
    count
}

/// Passes where a chain of 100 clauses has a model at once in which all atoms are true, and few looks.
fn is_followed(decided: &Decided) -> Result<(), Fail>
    requires { 100 ≤ decided.now.workspace.atoms }
{
    agree(decided.verdict, Verdict::Model(1), b"a chain")?;
    let truths = count_of(&decided.workspace, 100);
    agree((truths, decided.looks <= 399), (100, true), b"a chain")
}

/// A body that goes through all clauses until nothing is added looks at a clause 10,100 times.
#[test]
fn a_chain_of_clauses_is_looked_at_a_few_times(rt: HostRuntime) -> Result<(), Fail> {
    let region = chain(rt.alloc(), 100)?;
    let decided = decide(rt.alloc(), &region, 100, 1)?;
    is_followed(&decided)
}

/// Numbers that a fixed rule gives one after the other.
#[derive(Drop)]
struct Random {
    state: u32,
}

impl Random {
    /// The next number, below a bound.
    fn below(&mut self, bound: u32) -> u32
        requires { 0 < bound }
        ensures { result < bound }
    {
        self.state = self.state.wrapping_mul(1664525).wrapping_add(1013904223);
        (self.state / 65536) % bound
    }

    /// One of the literals of the first five atoms.
    fn number(&mut self) -> i32 {
        const NUMBERS: [i32; 10] = [1, -1, 2, -2, 3, -3, 4, -4, 5, -5];
        NUMBERS[self.below(10) as usize]
    }
}

/// Whether a literal is true, where the bits of a number are the values of the atoms.
fn is_true(number: i32, values: u32) -> bool {
    let bit = values.checked_shr(number.unsigned_abs()).unwrap_or(0) % 2 == 1;
    bit == (number > 0)
}

/// Whether each clause has a true literal.
fn are_met(clauses: &[[i32; 3]], values: u32) -> bool {
    clauses.iter().all(|clause| clause.iter().any(|number| is_true(*number, values)))
}

/// Whether some values of the first five atoms satisfy the clauses.
fn is_satisfiable(clauses: &[[i32; 3]]) -> bool {
    (0..64u32).any(|values| are_met(clauses, values))
}

/// The values of the first five atoms in a model.
fn values_of(workspace: &Workspace) -> u32
    requires { 5 ≤ workspace.now.atoms }
{
    let mut values: u32 = 0;
    for atom in 1..=5u32 {
        values |= u32::from(workspace.truth(atom))
            .checked_shl(atom)
            .unwrap_or(0);
    }
    values
}

/// So many clauses of three literals.
fn some_clauses(alloc: Global, random: &mut Random, count: u32) -> Result<Vec<[i32; 3]>, Fail> {
    let mut clauses = Vec::new(alloc);
    for _ in 0..count {
        clauses.push([random.number(), random.number(), random.number()])?;
    }
    Ok(clauses)
}

/// Pushes these clauses.
fn add_all(alloc: Global, region: &mut Region, clauses: &[[i32; 3]]) -> Result<(), Fail>
    requires { All (All (λ l. l.atom ≤ 5)) region.old.clauses }
    ensures { All (All (λ l. l.atom ≤ 5)) region.new.clauses }
{
    for numbers in clauses {
        add(alloc, region, 5, numbers)?;
    }
    Ok(())
}

/// A region with these clauses.
fn laid_out(alloc: Global, clauses: &[[i32; 3]]) -> Result<Region, Fail>
    ensures { IfOk result (λ r. All (All (λ l. l.atom ≤ 5)) r.clauses) }
{
    let mut region = Region::make(alloc, 100, 40)?;
    add_all(alloc, &mut region, clauses)?;
    Ok(region)
}

/// Passes where the verdict on the clauses is that of all assignments, and a model satisfies each clause.
fn is_true_of_all(decided: &Decided, clauses: &[[i32; 3]]) -> Result<(), Fail>
    requires { 5 ≤ decided.now.workspace.atoms }
{
    match decided.verdict {
        Verdict::Closed(_) => agree(is_satisfiable(clauses), false, b"closed"),
        Verdict::Model(_) => agree(
            are_met(clauses, values_of(&decided.workspace)),
            true,
            b"a model",
        ),
        Verdict::Spent => Err(Fail::new("a tree over five atoms has at most 63 nodes")),
    }
}

/// Passes where the clauses were decided as all assignments say, with few looks.
fn is_as_wanted(region: &Region, decided: &Decided, clauses: &[[i32; 3]]) -> Result<(), Fail>
    requires { 5 ≤ decided.now.workspace.atoms }
{
    agree(are_few_looks(region, decided, 63), true, b"looks")?;
    is_true_of_all(decided, clauses)
}

/// Passes where clauses are decided as all assignments say, with few looks.
fn is_right(alloc: Global, clauses: &[[i32; 3]]) -> Result<(), Fail> {
    let region = laid_out(alloc, clauses)?;
    let decided = decide(alloc, &region, 5, 63)?;
    is_as_wanted(&region, &decided, clauses)
}

#[test]
fn verdicts_are_those_of_all_assignments(rt: HostRuntime) -> Result<(), Fail> {
    let alloc = rt.alloc();
    let mut random = Random { state: 1 };
    for _ in 0..200 {
        let count = 12 + random.below(20);
        let clauses = some_clauses(alloc, &mut random, count)?;
        is_right(alloc, &clauses)?;
    }
    Ok(())
}
