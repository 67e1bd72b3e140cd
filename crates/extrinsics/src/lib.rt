// The rig placer: from the poses that cameras saw over views to one pose for each camera and each view, or a refusal by number.
// The names follow the Rust: `estimate_extrinsics_from_cam_target_poses`, `rig_se3_cam`, `rig_se3_target`.
#![tactic(auto)]

ghost use Rattle.std.specs.Prelude.{◌≤◌, length};
ghost use Rattle.limits.specs.Limits.{first_needs, second_needs};
ghost use Rattle.placing.specs.Rig.{rig_grid};
ghost use Rattle.placing.specs.Lent.{SameAnswers};
ghost use Rattle.extrinsics.specs.Outcome.{grid_refusal, Answers};
ghost use Rattle.extrinsics.specs.Direct.{Direct};

pub mod checks;

use chains::layer_cameras;
use inputs::{Marks, camera_count, check_input};
use limits::ONE_VIEW;
use placing::answer::LentAnswers;
use placing::grid::{Observations, Rig};
use placing::write_solved;
use refusal::Refusal;

// The core of every entry: 7, 8 and 9 in this order, or the solved rig, whose poses then stand in the lent answers. A refusal writes nothing.
pub fn solve(seen: &Observations<'_>, answers: &mut LentAnswers<'_>) -> Result<(), Refusal>
    requires { (first_needs seen.now.rig.cameras seen.now.rig.views ≤ length answers.old.transforms.now) × (second_needs seen.now.rig.cameras ≤ length answers.old.chains.now) }
    ensures answered { Answers (grid_refusal (rig_grid seen.now.rig seen.now.floats.now)) (rig_grid seen.now.rig seen.now.floats.now) answers.old.transforms.now answers.old.chains.now result answers.new.transforms.now answers.new.chains.now }
    ensures same { SameAnswers answers.old answers.new }
{
    if let Some(cell) = checks::find_not_finite(seen) {
        return Err(Refusal::NotFinite(cell));
    }
    let rig = &seen.rig;
    let tree = layer_cameras(rig.masks, rig.cameras, ONE_VIEW, rig.reference);
    let unreached = checks::unreached_cameras(seen, &tree);
    if unreached != 0 {
        return Err(Refusal::Unreached(unreached));
    }
    if let Some(view) = checks::find_empty_view(seen) {
        return Err(Refusal::EmptyView(view));
    }
    write_solved(seen, &tree, answers);
    Ok(())
}

// The direct call: per view its count of cameras; a mark for each cell, view after view, 0 empty and 1 a pose; seven floats for
// each cell; the reference; and the two answers, in which the poses of a solved rig stand.
pub fn estimate_extrinsics_from_cam_target_poses(
    counts: &[u32],
    marks: &[u8],
    floats: &[f64],
    reference: u32,
    answers: &mut LentAnswers<'_>,
) -> Result<(), Refusal>
    ensures answered { Direct counts.now marks.now floats.now reference answers.old.transforms.now answers.old.chains.now result answers.new.transforms.now answers.new.chains.now }
    ensures same { SameAnswers answers.old answers.new }
{
    let reference = reference as usize;
    check_input(
        counts,
        marks,
        floats.len(),
        reference,
        answers.transforms.len(),
        answers.chains.len(),
    )?;
    let views = counts.len();
    let cameras = camera_count(counts);
    let marked = Marks {
        marks,
        views,
        cameras,
    };
    let rig = Rig {
        masks: marked.masks(),
        views,
        cameras,
        reference,
        stride: cameras,
    };
    solve(&Observations { rig, floats }, answers)
}
