// Lists of poses lent as floats, seven each: their product, and their inverses.
ghost use Rattle.std.specs.Prelude.{◌≡◌, ◌*◌, ◌/◌, ◌≤◌, ◌++◌, length, drop};
ghost use Rattle.test_probe.specs.Poses.{product_of, inverses_of};

use arithmetic::pose::Pose;
use limits::POSE_FLOATS;

// The product of all poses, in order.
pub fn product_of(poses: &[f64]) -> Pose
    ensures { result ≡ product_of poses.now }
{
    let n = poses.len() / POSE_FLOATS;
    let mut product = Pose::identity();
    for i in 0..n {
        product = product * Pose::read(poses, POSE_FLOATS * i);
    }
    product
}

// The inverse of each pose, at the same place.
pub fn write_inverses(poses: &[f64], inverses: &mut [f64])
    requires { length poses.now ≤ length inverses.old }
    ensures { inverses.new ≡ inverses_of poses.now ++ drop (7 * (length poses.now / 7)) inverses.old }
{
    let n = poses.len() / POSE_FLOATS;
    for i in 0..n {
        let at = POSE_FLOATS * i;
        let inverse = Pose::read(poses, at).inverse();
        inverse.write(&mut inverses[at..]);
    }
}
