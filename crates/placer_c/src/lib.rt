// The static library: what C and Rust call. Each export calls the function of `placer` of its name and states its clauses again; include/placer.h is the C header.
#![tactic(auto)]

ghost use Rattle.std.specs.Prelude.{◌≡◌};
ghost use Rattle.root.specs.Root.{root_of, IsRootOf};
ghost use Rattle.telemetry.specs.Frames.{Bytes};
ghost use Rattle.placer.specs.Exports.{AveragedInto, Estimated, shared_reply, ImportedInto};
ghost use Rattle.placer.specs.Step.{Stepped};

use arithmetic::pose::Pose;
use limits::POSE_FLOATS;

// The square root of IEEE 754, for every double.
#[unsafe(no_mangle)]
pub extern "C" fn placer_sqrt(x: f64) -> f64
    ensures { (result ≡ root_of x) × IsRootOf x result }
{
    placer::placer_sqrt(x)
}

// The average of pose records, its seven numbers into `mean`. Refuses 1, 2 and 7. For C and Rust the lent list is a pointer to the first
// record and a count, and `mean` a pointer to seven doubles.
#[unsafe(no_mangle)]
pub extern "C" fn rig_average_isometries(poses: &[Pose], mean: &mut [f64; POSE_FLOATS]) -> u64
    ensures { AveragedInto poses.now mean.old result mean.new }
{
    placer::rig_average_isometries(poses, mean)
}

// The direct call. Refuses 1 to 9.
// Kept: slices apart, as C lends them.
#[unsafe(no_mangle)]
pub extern "C" fn placer_estimate(
    counts: &[u32],
    marks: &[u8],
    floats: &[f64],
    reference: u32,
    transforms: &mut [f64],
    chains: &mut [u8],
) -> u64
    ensures { Estimated counts.now marks.now floats.now reference transforms.old chains.old result transforms.new chains.new }
{
    placer::placer_estimate(counts, marks, floats, reference, transforms, chains)
}

// Obeys the one command at an offset of a stream: the session record goes in and out as words, a mask for each camera, the views, the
// cameras, the reference and the summary, all 0 in a fresh session; and `next` is set to where the next command begins. The record is written where Size,
// Pose or Withdraw is accepted, and nowhere else. Answers 0 at the end of the stream, 1 for a command accepted and 2 for a rig solved. Refuses what
// the session refuses, and words that are no record with 5.
// Kept: slices apart, as C lends them.
#[unsafe(no_mangle)]
pub extern "C" fn placer_step(
    session: &mut [u64],
    stream: &[u8],
    at: usize,
    buffer: &mut [f64],
    transforms: &mut [f64],
    chains: &mut [u8],
    next: &mut usize,
) -> u64
    ensures { Stepped session.old stream.now at buffer.old transforms.old chains.old result next.new session.new buffer.new transforms.new chains.new }
{
    placer::placer_step(session, stream, at, buffer, transforms, chains, next)
}

// How many views hold poses of both cameras, by a session record's words; nothing is written. Refuses 5, 21 and 12, and words that are no
// record with 5.
#[unsafe(no_mangle)]
pub extern "C" fn placer_shared(session: &[u64], first: u8, second: u8) -> u64
    ensures { result ≡ shared_reply session.now first second }
{
    placer::placer_shared(session, first, second)
}

// Packed telemetry frames as Pose commands, in their order, into lent bytes, 59 a frame. Answers how many frames there were. Refuses 14, 15 and 5.
#[unsafe(no_mangle)]
pub extern "C" fn placer_frames(frames: &[u8], commands: &mut [u8]) -> u64
    ensures imported { ImportedInto frames.now commands.old result commands.new }
    ensures of_bytes { Bytes frames.now }
{
    placer::placer_frames(frames, commands)
}
