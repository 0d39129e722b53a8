//! The way down to a node of a log.

ghost use Rattle.std.specs.Prelude.{◌≡◌, ◌+◌, ◌<◌, ◌≤◌, length, vec_capacity};
ghost use Rattle.pg_decider.specs.Leaf.{path_of};
ghost use Rattle.pg_decider.specs.Walk.{IsLogOver};

use crate::log::{TreeLog, TreeNode};
use crate::search::{Branch, go_back, go_down};
use crate::trail::Trail;

/// Puts the path of the node at a place, from 0 on, on the trail.
pub fn walk(trail: &mut Trail, branches: &mut Vec<Branch>, log: &TreeLog, place: u32)
    requires log { IsLogOver trail.old.atoms log.now.lines }
    requires place { place < length log.now.lines }
    requires room { trail.old.atoms + 1 ≤ vec_capacity branches.old }
    ensures atoms { trail.new.atoms ≡ trail.old.atoms }
    ensures room { vec_capacity branches.new ≡ vec_capacity branches.old }
    ensures path { trail.new.literals ≡ path_of log.now.lines place }
{
    branches.truncate(0);
    trail.undo(0);
    'lines: for k in 0..place {
        match log.node(k + 1) {
            TreeNode::Split(literal) => {
                go_down(trail, branches, literal);
            }
            TreeNode::Leaf => match go_back(trail, branches) {
                None => unreachable!(),
                Some(_) => {}
            },
        }
    }
}
