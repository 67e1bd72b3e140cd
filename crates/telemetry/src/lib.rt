// Packed telemetry frames turned into Pose commands, which are put into lent bytes, or why they are not.
#![tactic(auto)]

ghost use Rattle.std.specs.Prelude.{◌+◌, ◌*◌, ◌<◌, ◌≡◌, true, length};
ghost use Rattle.arithmetic.specs.Pose.{finite_pose};
ghost use Rattle.command.specs.Command.{pose_width};
ghost use Rattle.inputs.specs.Inputs.{checked_of};
ghost use Rattle.telemetry.specs.Frames.{Bytes, frame_bytes, packed_pose, frames_in, command_bytes, frames_refusal, imported_of, import_leaves, max_bytes, kept_length, RefusedAlike};

mod numbers;

use crate::numbers::{MICROMETRES, ROTATION_UNITS, scaled};
use arithmetic::pose::{Pose, Quaternion, Vec3};
use command::bytes::read_u32;
use command::parse::POSE_WIDTH;
use command::write::put_pose_command;
use putting::Writer;
use refusal::Refusal;

pub const FRAME_BYTES: usize = 30;

pub const MAX_FRAMES: usize = 1024;

pub const MAX_BYTES: usize = FRAME_BYTES * MAX_FRAMES;

// 14, 15, then 5.
#[tactic(auto, unfolding(crate::specs::Frames::frames_refusal, inputs::specs::Inputs::checked_of))]
fn check_frames(frames: usize, lent: usize) -> Result<(), Refusal>
    ensures { result ≡ checked_of (frames_refusal frames lent) }
{
    if frames % FRAME_BYTES != 0 {
        return Err(Refusal::BrokenFrame);
    }
    if MAX_FRAMES < frames / FRAME_BYTES {
        return Err(Refusal::TooManyFrames);
    }
    if lent != POSE_WIDTH * (frames / FRAME_BYTES) {
        return Err(Refusal::WrongLength);
    }
    Ok(())
}

// The pose that a frame has behind its view and its camera.
#[tactic(auto, unfolding(crate::specs::Frames::packed_pose, crate::specs::Frames::metres_at, crate::specs::Frames::rotation_at, arithmetic::specs::Pose::finite_pose))]
fn read_packed(frame: &[u8; FRAME_BYTES]) -> Pose
    ensures value { result ≡ packed_pose frame.now 0 }
    ensures is_finite { finite_pose result ≡ true }
{
    Pose {
        translation: Vec3 {
            x: scaled(read_u32(frame, 2), MICROMETRES),
            y: scaled(read_u32(frame, 6), MICROMETRES),
            z: scaled(read_u32(frame, 10), MICROMETRES),
        },
        rotation: Quaternion {
            i: scaled(read_u32(frame, 14), ROTATION_UNITS),
            j: scaled(read_u32(frame, 18), ROTATION_UNITS),
            k: scaled(read_u32(frame, 22), ROTATION_UNITS),
            w: scaled(read_u32(frame, 26), ROTATION_UNITS),
        },
    }
}

#[tactic(auto, using(putting::proofs::Putting::puts_nothing, putting::proofs::Putting::puts_whole), unfolding(lists::specs::Lists::gather, crate::specs::Frames::command_bytes))]
fn put_commands(frames: &[u8], commands: &mut [u8])
    requires { length commands.old ≡ pose_width * frames_in frames.now }
    ensures { commands.new ≡ command_bytes frames.now }
{
    let mut writer = Writer::new(commands);
    let (packed, _) = frames.as_chunks::<FRAME_BYTES>();
    for frame in packed {
        put_pose_command(&mut writer, frame[0], frame[1], read_packed(frame));
    }
}

// The Pose command of each frame, in their order, into lent bytes that are exactly as many as those take; the answer is how many frames.
#[tactic(auto, using(crate::proofs::Frames::frames_passed), unfolding(crate::specs::Frames::imported_of, crate::specs::Frames::imported_by, crate::specs::Frames::import_leaves, crate::specs::Frames::left_by, inputs::specs::Inputs::checked_of))]
pub fn import_frames(frames: &[u8], commands: &mut [u8]) -> Result<u32, Refusal>
    ensures value { result ≡ imported_of frames.now commands.old }
    ensures commands_after { commands.new ≡ import_leaves frames.now commands.old }
    // What every caller lends are bytes, of which the demand in words speaks.
    ensures of_bytes { Bytes frames.now }
{
    check_frames(frames.len(), commands.len())?;
    put_commands(frames, commands);
    Ok((frames.len() / FRAME_BYTES) as u32)
}

// For a reader that cannot hold a longer input: a length that is refused alike, whatever comes behind it, and stays below MAX_BYTES and two frames.
#[tactic(auto, using(crate::proofs::Frames::alike_self, crate::proofs::Frames::shortened_alike), unfolding(crate::specs::Frames::kept_length))]
pub fn shortened(length: usize) -> usize
    ensures { (result ≡ kept_length length) × RefusedAlike result length × (result < max_bytes + 2 * frame_bytes) }
{
    if length <= MAX_BYTES {
        return length;
    }
    MAX_BYTES + FRAME_BYTES + length % FRAME_BYTES
}
