// The grid as the estimate reads it: one mask of views for each camera, and the coordinates of all cells in one slice of floats.
ghost use Rattle.std.specs.Prelude.{◌+◌, ◌*◌, ◌≤◌, ◌<◌, ◌≡◌, length};
ghost use Rattle.limits.specs.Limits.{max_views, pose_floats};
ghost use Rattle.placing.specs.Rig.{masked_cell};
ghost use Rattle.placing.specs.Inner.Fitting.{Fitting};

use arithmetic::pose::Pose;
use limits::{MAX_CAMERAS, POSE_FLOATS};

// Bit v of a camera's mask is set when view v holds a pose of that camera. The pose of camera c in view v is number
// v * stride + c among the floats.
#[derive(Clone, Copy)]
pub struct Rig {
    pub masks: [u64; MAX_CAMERAS],
    pub views: usize,
    pub cameras: usize,
    pub reference: usize,
    pub stride: usize,
}

// A rig with the floats of its poses, which fit it.
#[derive(Clone, Copy)]
pub struct Observations<'a> {
    pub rig: Rig,
    pub floats: &'a [f64],
    ghost fits: { Fitting rig floats.now },
}

impl Observations<'_> {
    ghost use Rattle.placing.specs.Rig.{rig_cell};

    // What a view holds of a camera: nothing, or the target's pose T_C_T.
    #[tactic(auto, unfolding(crate::specs::Rig::rig_cell))]
    pub fn cell(&self, view: usize, camera: usize) -> Option<Pose>
        requires { (view < self.now.rig.views) × (camera < self.now.rig.cameras) }
        ensures { result ≡ rig_cell self.now.rig self.now.floats.now view camera }
    {
        read_cell(
            self.rig.masks[camera],
            self.floats,
            view,
            view * self.rig.stride + camera,
        )
    }
}

// The cell of a camera with this mask, its pose being number `at` among the floats.
pub fn read_cell(mask: u64, floats: &[f64], view: usize, at: usize) -> Option<Pose>
    requires { (view < max_views) × (pose_floats * at + pose_floats ≤ length floats.now) }
    ensures { result ≡ masked_cell mask floats.now view at }
{
    if (mask >> view) & 1 == 1 {
        Some(Pose::read(floats, POSE_FLOATS * at))
    } else {
        None
    }
}
