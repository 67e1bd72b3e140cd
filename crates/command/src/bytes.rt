// Words, doubles and poses out of a stream, low byte first.
ghost use Rattle.std.specs.Prelude.{◌+◌, ◌≤◌, ◌≡◌, length};
ghost use Rattle.command.specs.Command.{half_at, word_at, double_at, offered_pose};
ghost use Rattle.command.specs.Inner.Parts.{pose_bytes, finite_double, pose_of_finite};

use arithmetic::pose::{Pose, Quaternion, Vec3};

// The bit of a double's sign, and the pattern of infinity: without their sign, the patterns of finite doubles are those below it.
const SIGN: u64 = 0x8000_0000_0000_0000;

const INFINITY: u64 = 0x7ff0_0000_0000_0000;

// Four bytes from `at`.
// Kept: a part of just these bytes, here and below: of all that follow `at`, `first_chunk` tests the length again, which takes a Pose 55 instructions more.
pub fn read_u32(stream: &[u8], at: usize) -> u32
    requires { at + 4 ≤ length stream.now }
    ensures { result ≡ half_at stream.now at }
{
    u32::from_le_bytes(*stream[at..at + 4].first_chunk().unwrap())
}

// Eight bytes from `at`.
// Kept: beside `read_u32`, since each promises a sum of its own: of one function over the width, both would read as bytes still to be put together.
#[tactic(auto, using(crate::proofs::Words::word_at_is))]
fn read_u64(stream: &[u8], at: usize) -> u64
    requires { at + 8 ≤ length stream.now }
    ensures { result ≡ word_at stream.now at }
{
    u64::from_le_bytes(*stream[at..at + 8].first_chunk().unwrap())
}

// The double whose eight bytes begin at `at`, where it is finite; told by the bits, so that no other pattern is ever made a double.
#[tactic(auto, using(crate::proofs::Patterns::finite_pattern, crate::proofs::Patterns::not_nan_pattern), unfolding(crate::specs::Command::double_at))]
fn read_finite(stream: &[u8], at: usize) -> Option<f64>
    requires { at + 8 ≤ length stream.now }
    ensures { result ≡ finite_double (double_at stream.now at) }
{
    let pattern = read_u64(stream, at);
    if pattern % SIGN < INFINITY {
        Some(f64::from_bits(pattern))
    } else {
        None
    }
}

// The pose whose seven doubles begin at `at`, where all of them are finite.
#[tactic(auto, unfolding(crate::specs::Command::offered_pose, arithmetic::specs::Pose::finite_pose))]
pub fn read_finite_pose(stream: &[u8], at: usize) -> Option<Pose>
    requires { at + pose_bytes ≤ length stream.now }
    ensures { result ≡ pose_of_finite (offered_pose stream.now at) }
{
    Some(Pose {
        translation: Vec3 {
            x: read_finite(stream, at)?,
            y: read_finite(stream, at + 8)?,
            z: read_finite(stream, at + 16)?,
        },
        rotation: Quaternion {
            i: read_finite(stream, at + 24)?,
            j: read_finite(stream, at + 32)?,
            k: read_finite(stream, at + 40)?,
            w: read_finite(stream, at + 48)?,
        },
    })
}
