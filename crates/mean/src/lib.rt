// The average of poses, one pose at a time: translations and rotations are summed as they come, and the sums become the
// average at the end. So no list of candidates is kept.
#![tactic(auto)]

ghost use Rattle.std.specs.Prelude.{◌≡◌, []};
ghost use Rattle.mean.specs.Average.{sign, plus_rotation, normalize, mean_rotation, mean_of};
ghost use Rattle.mean.specs.Inner.Taking.{taken, plus_pose};

use arithmetic::pose::{Pose, Quaternion, Vec3};
use root::sqrt;

// The rotation of the first pose taken, if any was, the sums of the poses taken so far, and how many there were.
#[derive(Clone, Copy)]
pub struct Average {
    pub first: Option<Quaternion>,
    pub translations: Vec3,
    pub rotations: Quaternion,
    pub count: u32,
}

#[tactic(auto, unfolding(crate::specs::Average::normalize))]
fn normalize(q: Quaternion) -> Quaternion
    ensures { result ≡ normalize q }
{
    q / sqrt(q.norm_squared())
}

// The sign that brings q into the hemisphere of `first`. A dot product of 0 leaves q as it is.
fn hemisphere(first: Quaternion, q: Quaternion) -> f64
    ensures { result ≡ sign first q }
{
    if first.dot(q) < 0.0 { -1.0 } else { 1.0 }
}

#[tactic(auto, unfolding(crate::specs::Average::plus_rotation))]
fn add_rotation(first: Quaternion, sum: Quaternion, p: Pose) -> Quaternion
    ensures { result ≡ plus_rotation first sum p }
{
    let q = p.rotation;
    sum + q * hemisphere(first, q)
}

// Opposite rotations can cancel: a sum of squared norm 0 has no direction, and the identity stands in.
// It is normalised twice, as the Rust's `normalize` and `from_quaternion` both do.
#[tactic(auto, unfolding(crate::specs::Average::mean_rotation))]
fn mean_rotation(count: f64, sum: Quaternion) -> Quaternion
    ensures { result ≡ mean_rotation count sum }
{
    if sum.norm_squared() == 0.0 {
        return Quaternion::identity();
    }
    let once = normalize(sum / count);
    normalize(once)
}

impl Average {
    #[tactic(auto, unfolding(crate::specs::Inner::Taking::taken))]
    pub fn new() -> Average
        ensures { result ≡ taken [] }
    {
        Average {
            first: None,
            translations: Vec3::zeros(),
            rotations: Quaternion {
                i: 0.0,
                j: 0.0,
                k: 0.0,
                w: 0.0,
            },
            count: 0,
        }
    }

    // One pose more; the others take the hemisphere of the first pose's rotation. The count is that of the poses taken, modulo 2^32.
    #[tactic(auto, unfolding(crate::specs::Inner::Taking::plus_pose, crate::specs::Average::plus_translation))]
    pub fn add(self, p: Pose) -> Average
        ensures { result ≡ plus_pose self p }
    {
        let first = self.first.unwrap_or(p.rotation);
        Average {
            first: Some(first),
            translations: self.translations + p.translation,
            rotations: add_rotation(first, self.rotations, p),
            count: self.count.wrapping_add(1),
        }
    }

    #[tactic(auto, unfolding(crate::specs::Average::mean_of))]
    pub fn mean(self) -> Pose
        ensures { result ≡ mean_of self.count self.translations self.rotations }
    {
        let count = f64::from(self.count);
        Pose {
            translation: self.translations / count,
            rotation: mean_rotation(count, self.rotations),
        }
    }
}
