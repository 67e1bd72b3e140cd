// The poses of a rig: averaged links between cameras, the rig poses of cameras in the order of their layers, and the candidates for
// the target poses of views. T_A_B is the transform from frame B to frame A; R is the rig, C a camera, T the target.
ghost use Rattle.std.specs.Prelude.{◌<◌, ◌≡◌};
ghost use mathlib.Core.List.{foldl};
ghost use Rattle.mean.specs.Inner.Taking.{plus_pose};
ghost use Rattle.chains.specs.Inner.Trees.{parent_at, links_at};
ghost use Rattle.placing.specs.Estimate.{link_candidate, averaged_link, target_candidate};
ghost use Rattle.placing.specs.Rig.{rig_grid};
ghost use Rattle.placing.specs.Inner.Placed.{Rooted, PlacedAll};

use crate::grid::Observations;
use arithmetic::pose::Pose;
use chains::Tree;
use limits::MAX_CAMERAS;
use mean::Average;

// The candidate of one view, where it holds both: T_Cparent_C = T_Cparent_T * (T_C_T)^(-1).
#[tactic(auto, unfolding(crate::specs::Estimate::link_candidate))]
fn add_link(sum: Average, of_parent: Option<Pose>, of_camera: Option<Pose>) -> Average
    ensures { result ≡ foldl plus_pose sum (link_candidate of_parent of_camera) }
{
    match (of_parent, of_camera) {
        (Some(p), Some(q)) => sum.add(p * q.inverse()),
        _ => sum,
    }
}

// The average of the candidates over the views that hold both cameras, ascending.
#[tactic(auto, unfolding(lists::specs::Lists::gather))]
fn average_link(seen: &Observations<'_>, parent: usize, camera: usize) -> Pose
    requires { (parent < seen.now.rig.cameras) × (camera < seen.now.rig.cameras) }
    ensures { result ≡ averaged_link (rig_grid seen.now.rig seen.now.floats.now) parent camera }
{
    let mut sum = Average::new();
    for view in 0..seen.rig.views {
        sum = add_link(sum, seen.cell(view, parent), seen.cell(view, camera));
    }
    sum.mean()
}

// The rig poses of all cameras, whatever tree they hang in, by their links, ascending: T_R_C = T_R_Cparent * T_Cparent_C, the parent having
// one link fewer. The reference, which has none, is the rig's own frame. The poses stay in one place: handed from function to function, all
// sixteen would be copied each time.
pub(crate) fn place_cameras(seen: &Observations<'_>, tree: &Tree) -> [Pose; MAX_CAMERAS]
    requires { Rooted seen.now.rig.cameras seen.now.rig.reference (parent_at tree.now) (links_at tree.now) }
    ensures { PlacedAll (rig_grid seen.now.rig seen.now.floats.now) (parent_at tree.now) (links_at tree.now) result }
{
    let cameras = seen.rig.cameras;
    let mut poses = [Pose::identity(); MAX_CAMERAS];
    for layer in 1..cameras {
        for camera in 0..cameras {
            if let Some(place) = tree.places[camera] {
                if usize::from(place.links) == layer {
                    let parent = usize::from(place.parent);
                    let link = average_link(seen, parent, camera);
                    poses[camera] = poses[parent] * link;
                }
            }
        }
    }
    poses
}

// The candidate of one camera, where the view holds its pose: T_R_T = T_R_C * T_C_T.
#[tactic(auto, unfolding(crate::specs::Estimate::target_candidate))]
pub(crate) fn add_target(sum: Average, rig_se3_cam: Pose, of_camera: Option<Pose>) -> Average
    ensures { result ≡ foldl plus_pose sum (target_candidate rig_se3_cam of_camera) }
{
    match of_camera {
        Some(p) => sum.add(rig_se3_cam * p),
        None => sum,
    }
}
