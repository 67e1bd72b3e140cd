// The public averaging entry, run: arrays of pose records are lent to it, and what it answers is printed, a line for each list.
// A refusal is `no`, its number and its detail; a mean is `ok`, and 1 where it is the one that is expected.
#![tactic(auto)]

ghost use Rattle.std.specs.Prelude.{◌≤◌, ◌≡◌, take};
ghost use Rattle.averaging.specs.Entry.{averaged_of};

use arithmetic::pose::{Pose, Quaternion, Vec3};
use averaging::average_isometries;
use refusal::Refusal;
use std::io;

// One record more than an average takes.
const ROOM: usize = 65;

// The average of the first `count` records of the array, which are lent.
fn average_first(poses: [Pose; ROOM], count: usize) -> Result<Pose, Refusal>
    requires { count ≤ 65 }
    ensures { result ≡ averaged_of (take count poses) }
{
    average_isometries(&poses[..count])
}

// A pose with that x, and that w in its rotation.
fn pose(x: f64, w: f64) -> Pose {
    Pose {
        translation: Vec3 { x, y: 0.0, z: 0.0 },
        rotation: Quaternion {
            i: 0.0,
            j: 0.0,
            k: 0.0,
            w,
        },
    }
}

// The answer, where the mean is to be this one.
fn show(rt: &impl Print, answer: Result<Pose, Refusal>, expected: Pose) -> io::Result<()> {
    match answer {
        Ok(mean) => println!(rt; "ok {}", (mean == expected) as u64),
        Err(refusal) => println!(rt; "{refusal}"),
    }
}

fn main(rt: HostRuntime) -> io::Result<()> {
    let mut poses = [pose(2.0, 1.0); ROOM];
    poses[0] = pose(1.0, 1.0);
    // The second rotation is the first one's opposite, and is turned over.
    poses[1] = pose(4.0, -1.0);
    show(&rt, average_first(poses, 0), pose(0.0, 1.0))?;
    show(&rt, average_first(poses, 1), pose(1.0, 1.0))?;
    show(&rt, average_first(poses, 2), pose(2.5, 1.0))?;
    show(&rt, average_first(poses, 64), pose(2.015625, 1.0))?;
    show(&rt, average_first(poses, 65), pose(0.0, 1.0))?;
    // The last of 64 holds an infinity; of 63 none does.
    poses[63] = pose(1.0 / 0.0, 1.0);
    show(&rt, average_first(poses, 64), pose(0.0, 1.0))?;
    show(&rt, average_first(poses, 2), pose(2.5, 1.0))?;
    // And so does a lower one.
    poses[7] = pose(0.0, 0.0 / 0.0);
    show(&rt, average_first(poses, 64), pose(0.0, 1.0))?;
    // A zero rotation has the identity for its mean.
    poses[0] = pose(3.0, 0.0);
    show(&rt, average_first(poses, 1), pose(3.0, 1.0))
}
