//! Checks a tree line by line.

ghost use Rattle.std.specs.Prelude.{◌≡◌, ℕ, ◌+◌, ◌<◌, ◌≤◌, ◌↔◌, false, Some, None, [], ◌∷◌, ◌++◌, length, take, vec_capacity, MatchResult, IsOk};
ghost use Rattle.std.specs.Bool.{MatchBool};
ghost use Rattle.pg_region.specs.Literal.{Literal, negated};
ghost use Rattle.pg_region.specs.Range.{listed, Fits};
ghost use Rattle.pg_decider.specs.Assignment.{on};
ghost use Rattle.pg_decider.specs.Trail.{lit};
ghost use Rattle.pg_derivation.specs.Derivation.{nodes_of};
ghost use Rattle.pg_tree.specs.Fault.{leaf_fault, may_split, tree_fault, check_fault};
ghost use Rattle.pg_tree.specs.Path.{mark};
ghost use Rattle.pg_tree.specs.Valid.{AreValid};

use crate::fault::TreeFault;
use crate::path::Path;
use crate::trail::Trail;
use crate::unit::{are_all_false, is_free, unit_of};
use pg_derivation::{DocNode, TreeView};
use pg_region::{ClauseReader, Lit, Loaded, Region};

/// Checks the tree of an obligation, whose clauses are those that were loaded: whether it is valid, or its first fault. What the
/// trail held before doesn't matter, and it can be used again. Takes no memory.
pub fn check_tree(
    region: &Region,
    loaded: Loaded,
    tree: &TreeView<'_>,
    trail: &mut Trail,
) -> Result<(), TreeFault>
    requires fits { Fits loaded region.now.clauses }
    ensures exact { MatchResult result (λ _. check_fault trail.old loaded.atoms (listed region.now.clauses loaded.range) tree.now ≡ None) (λ f. check_fault trail.old loaded.atoms (listed region.now.clauses loaded.range) tree.now ≡ Some f) }
    ensures valid { loaded.atoms ≤ trail.old → IsOk result ↔ AreValid loaded.atoms (listed region.now.clauses loaded.range) (nodes_of tree.now) }
    ensures kept { trail.new ≡ trail.old }
{
    let room = trail.path.atoms();
    if room < loaded.atoms {
        return Err(TreeFault::TrailFull(room));
    }
    let mut reader = ClauseReader::of(region, loaded);
    match find_fault(&mut reader, tree, &mut trail.path, &mut trail.marks) {
        None => Ok(()),
        Some(fault) => Err(fault),
    }
}

/// The first fault of the lines of a tree.
fn find_fault(
    reader: &mut ClauseReader,
    tree: &TreeView<'_>,
    path: &mut Path,
    marks: &mut Vec<u32>,
) -> Option<TreeFault>
    requires atoms { reader.old.atoms ≤ path.old.atoms }
    requires room { path.old.atoms + 1 ≤ vec_capacity marks.old }
    ensures exact { result ≡ tree_fault reader.old.atoms reader.old.clauses tree.now }
    ensures atoms { path.new.atoms ≡ path.old.atoms }
    ensures room { vec_capacity marks.new ≡ vec_capacity marks.old }
{
    path.undo(0);
    marks.truncate(0);
    let mut last = 0;
    let mut is_open = true;
    'lines: for k in 0..tree.len() {
        let line = tree.line(k + 1);
        if !is_open {
            return Some(TreeFault::TooMuch(line));
        }
        match tree.node(k + 1) {
            DocNode::Split(literal) => {
                if !may_stand(literal, reader, path) {
                    return Some(TreeFault::BadLiteral(line));
                }
                go_down(path, marks, literal);
            }
            DocNode::Leaf(numbers) => {
                if let Some(fault) = check_leaf(reader, path, numbers, line) {
                    return Some(fault);
                }
                is_open = go_back(path, marks);
            }
        }
        last = line;
    }
    if is_open {
        Some(TreeFault::EndsEarly(last))
    } else {
        None
    }
}

/// Whether a literal may be split at.
fn may_stand(literal: Lit, reader: &ClauseReader, path: &Path) -> bool
    requires { reader.now.atoms ≤ path.now.atoms }
    ensures { result ≡ may_split reader.now.atoms (on path.now.literals) literal }
{
    literal.atom() >= 1 && literal.atom() <= reader.atoms() && is_free(literal, path)
}

/// Adds a literal, and leaves its negation for later.
fn go_down(path: &mut Path, marks: &mut Vec<u32>, literal: Lit)
    requires unset { (literal.atom ≤ path.old.atoms) × (on path.old.literals literal ≡ false) × (on path.old.literals (negated literal) ≡ false) }
    requires few { length marks.old.items ≤ length path.old.literals }
    requires room { path.old.atoms + 1 ≤ vec_capacity marks.old }
    ensures path { path.new ≡ record path.old { literals = path.old.literals ++ literal ∷ [] } }
    ensures marks { marks.new.items ≡ marks.old.items ++ length path.old.literals ∷ [] }
    ensures room { vec_capacity marks.new ≡ vec_capacity marks.old }
{
    let mark = path.len();
    path.add(literal);
    let _len = path.len();
    marks.push_reserved(mark);
}

/// Goes back to the last mark, and adds the negation of the literal at it. False is the answer where there is none.
fn go_back(path: &mut Path, marks: &mut Vec<u32>) -> bool
    requires { (i : ℕ) → i + 1 ≡ length marks.old.items → mark marks.old.items i < length path.old.literals }
    ensures moved { MatchBool result ((m : ℕ) × (marks.old.items ≡ marks.new.items ++ m ∷ []) × (path.new.literals ≡ take m path.old.literals ++ negated (lit path.old.literals m) ∷ [])) (marks.old.items ≡ []) }
    ensures atoms { path.new.atoms ≡ path.old.atoms }
    ensures room { vec_capacity marks.new ≡ vec_capacity marks.old }
{
    match marks.pop() {
        None => false,
        Some(mark) => {
            let literal = path.at(mark).negated();
            path.undo(mark);
            path.add(literal);
            true
        }
    }
}

/// The first fault of a leaf.
fn check_leaf(
    reader: &mut ClauseReader,
    path: &mut Path,
    numbers: &[u32],
    line: u32,
) -> Option<TreeFault>
    requires atoms { reader.old.atoms ≤ path.old.atoms }
    ensures exact { result ≡ leaf_fault reader.old.clauses line (on path.old.literals) numbers.now }
    ensures reader { (reader.new.clauses ≡ reader.old.clauses) × (reader.new.atoms ≡ reader.old.atoms) }
    ensures path { path.new ≡ path.old }
{
    let before = path.len();
    let fault = leaf_steps(reader, path, numbers, line);
    path.undo(before);
    fault
}

/// The first fault of a leaf; the literals that its clauses add stay.
fn leaf_steps(
    reader: &mut ClauseReader,
    path: &mut Path,
    numbers: &[u32],
    line: u32,
) -> Option<TreeFault>
    requires atoms { reader.old.atoms ≤ path.old.atoms }
    ensures exact { result ≡ leaf_fault reader.old.clauses line (on path.old.literals) numbers.now }
    ensures reader { (reader.new.clauses ≡ reader.old.clauses) × (reader.new.atoms ≡ reader.old.atoms) }
    ensures atoms { path.new.atoms ≡ path.old.atoms }
    ensures longer { length path.old.literals ≤ length path.new.literals }
    ensures before { take (length path.old.literals) path.new.literals ≡ path.old.literals }
{
    let count = reader.count();
    let _atoms = reader.atoms();
    'numbers: for i in 0..numbers.len() {
        let n = numbers[i];
        if n < 1 || n > count {
            return Some(TreeFault::BadClause { line, n });
        }
        let clause = reader.clause(n);
        if i + 1 == numbers.len() {
            return if are_all_false(clause, path) {
                None
            } else {
                Some(TreeFault::NoConflict(line))
            };
        }
        match unit_of(clause, path) {
            None => return Some(TreeFault::NotUnit { line, n }),
            Some(literal) => path.add(literal),
        }
    }
    Some(TreeFault::NoConflict(line))
}
