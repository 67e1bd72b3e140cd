// The public averaging entry: the average of a lent list of pose records, or why there is none.
#![tactic(auto)]

ghost use Rattle.std.specs.Prelude.{◌≤◌, ◌≡◌, length};
ghost use Rattle.mean.specs.Average.{average_isometries};
ghost use Rattle.averaging.specs.Entry.{max_poses, averaged_of};

use arithmetic::pose::{Finite, Pose};
use mean::Average;
use refusal::Refusal;

// The most poses that one average takes: one for each view of a rig.
pub const MOST_POSES: usize = 64;

fn average(poses: &[Pose]) -> Pose
    requires { length poses.now ≤ max_poses }
    ensures { result ≡ average_isometries poses.now }
{
    let mut sum = Average::new();
    for pose in poses {
        sum = sum.add(*pose);
    }
    sum.mean()
}

// The average of lent pose records.
#[tactic(auto, unfolding(crate::specs::Entry::averaged_of))]
pub fn average_isometries(poses: &[Pose]) -> Result<Pose, Refusal>
    ensures { result ≡ averaged_of poses.now }
{
    if poses.is_empty() {
        return Err(Refusal::InsufficientData);
    }
    if MOST_POSES < poses.len() {
        return Err(Refusal::TooMany);
    }
    if let Some(place) = poses.iter().position(|pose| !pose.is_finite()) {
        return Err(Refusal::NotFinite(place as u32));
    }
    Ok(average(poses))
}
