// The two lent answers of a solved rig: the transforms of cameras and then of views, and the chains.
ghost use Rattle.std.specs.Prelude.{ℕ, ◌*◌, ◌≤◌, ◌<◌, ◌≡◌, IsSome, [], ◌∷◌, ◌++◌, length, get_or, drop};
ghost use Rattle.arithmetic.specs.Pose.{flat, nowhere};
ghost use Rattle.limits.specs.Limits.{pose_floats, second_needs};
ghost use Rattle.lists.specs.Lists.{gather};
ghost use Rattle.chains.specs.Inner.Trees.{parent_at, links_at};
ghost use Rattle.placing.specs.Estimate.{rig_se3_target_from};
ghost use Rattle.placing.specs.Rig.{rig_grid};

use crate::grid::Observations;
use crate::poses::add_target;
use arithmetic::pose::Pose;
use chains::Tree;
use limits::{CHAIN_BYTES, LINKS_PLACE, MAX_CAMERAS, POSE_FLOATS};
use mean::Average;

// The two answers, lent: where they are written, what a caller lent is written.
// Kept: that a call hands both back is a clause of each function (`SameAnswers`), since it tells of two moments, and an invariant of one.
#[derive(Drop)]
pub struct LentAnswers<'a> {
    pub transforms: &'a mut [f64],
    pub chains: &'a mut [u8],
}

// The same two lent to be read, which is all that a check of their lengths or a listing asks for.
#[derive(Clone, Copy)]
pub struct GivenAnswers<'a> {
    pub transforms: &'a [f64],
    pub chains: &'a [u8],
}

impl LentAnswers<'_> {
    pub fn given(&self) -> GivenAnswers<'_>
        ensures transforms { result.transforms.now ≡ self.now.transforms.now }
        ensures chains { result.chains.now ≡ self.now.chains.now }
    {
        GivenAnswers {
            transforms: self.transforms,
            chains: self.chains,
        }
    }
}

// Each camera's seven numbers go into the part of the answer that begins at 7 times its index.
#[tactic(auto, unfolding(lists::specs::Lists::gather))]
pub(crate) fn write_cameras(
    seen: &Observations<'_>,
    rig_se3_cam: &[Pose; MAX_CAMERAS],
    answer: &mut [f64],
)
    requires { pose_floats * seen.now.rig.cameras ≤ length answer.old }
    ensures { answer.new ≡ gather seen.now.rig.cameras (λ c. flat (get_or rig_se3_cam.now c nowhere)) ++ drop (pose_floats * seen.now.rig.cameras) answer.old }
{
    for camera in 0..seen.rig.cameras {
        let at = POSE_FLOATS * camera;
        let pose = rig_se3_cam[camera];
        pose.write(&mut answer[at..]);
    }
}

// The same for the views, from the front of the part that is lent: the average of the candidates over the cameras of each, ascending.
#[tactic(auto, unfolding(lists::specs::Lists::gather))]
pub(crate) fn write_targets(
    seen: &Observations<'_>,
    rig_se3_cam: &[Pose; MAX_CAMERAS],
    answer: &mut [f64],
)
    requires { pose_floats * seen.now.rig.views ≤ length answer.old }
    ensures { answer.new ≡ gather seen.now.rig.views (λ v. flat (rig_se3_target_from (rig_grid seen.now.rig seen.now.floats.now) (λ c. get_or rig_se3_cam.now c nowhere) v)) ++ drop (pose_floats * seen.now.rig.views) answer.old }
{
    for view in 0..seen.rig.views {
        let mut sum = Average::new();
        for camera in 0..seen.rig.cameras {
            sum = add_target(sum, rig_se3_cam[camera], seen.cell(view, camera));
        }
        let at = POSE_FLOATS * view;
        let pose = sum.mean();
        pose.write(&mut answer[at..]);
    }
}

// A parent and a link count for each camera, all of which have a place.
#[tactic(auto, unfolding(lists::specs::Lists::gather))]
pub(crate) fn write_chains(seen: &Observations<'_>, tree: &Tree, answer: &mut [u8])
    requires has_room { second_needs seen.now.rig.cameras ≤ length answer.old }
    requires all_placed { (c : ℕ) → c < seen.now.rig.cameras → IsSome (get_or tree.now.places c None) }
    ensures { answer.new ≡ gather seen.now.rig.cameras (λ c. parent_at tree.now c ∷ links_at tree.now c ∷ []) ++ drop (second_needs seen.now.rig.cameras) answer.old }
{
    for camera in 0..seen.rig.cameras {
        if let Some(place) = tree.places[camera] {
            answer[CHAIN_BYTES * camera] = place.parent;
            answer[CHAIN_BYTES * camera + LINKS_PLACE] = place.links;
        }
    }
}
