// The poses of a rig over any tree of its cameras that comes down to the reference, and both answers of a solved rig.
#![tactic(auto)]

ghost use Rattle.std.specs.Prelude.{◌≤◌, length};
ghost use Rattle.limits.specs.Limits.{first_needs, second_needs};
ghost use Rattle.chains.specs.Inner.Trees.{parent_at, links_at};
ghost use Rattle.placing.specs.Rig.{rig_grid};
ghost use Rattle.placing.specs.Inner.Placed.{Rooted, Written};
ghost use Rattle.placing.specs.Lent.{SameAnswers};

pub mod answer;
pub mod grid;
mod poses;

use crate::answer::{LentAnswers, write_cameras, write_chains, write_targets};
use crate::grid::Observations;
use chains::Tree;
use limits::POSE_FLOATS;

// The transforms of a rig whose cameras hang in this tree and whose views all hold a pose, and its chains.
pub fn write_solved(seen: &Observations<'_>, tree: &Tree, answers: &mut LentAnswers<'_>)
    requires rooted { Rooted seen.now.rig.cameras seen.now.rig.reference (parent_at tree.now) (links_at tree.now) }
    requires has_room { (first_needs seen.now.rig.cameras seen.now.rig.views ≤ length answers.old.transforms.now) × (second_needs seen.now.rig.cameras ≤ length answers.old.chains.now) }
    ensures written { Written (rig_grid seen.now.rig seen.now.floats.now) (parent_at tree.now) (links_at tree.now) answers.old.transforms.now answers.old.chains.now answers.new.transforms.now answers.new.chains.now }
    ensures same { SameAnswers answers.old answers.new }
{
    let rig_se3_cam = poses::place_cameras(seen, tree);
    write_cameras(seen, &rig_se3_cam, answers.transforms);
    let at = POSE_FLOATS * seen.rig.cameras;
    write_targets(seen, &rig_se3_cam, &mut answers.transforms[at..]);
    write_chains(seen, tree, answers.chains);
}
