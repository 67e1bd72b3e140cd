// What C and Rust call, by the exports of `placer_c`. Each function but the root answers a number below 2^32, or what it refuses as number times 2^32 plus detail, and a
// refusal writes nothing but `next`. No export asks anything of its caller but that the slices are real. include/placer.h is the C header.
#![tactic(auto)]

ghost use Rattle.std.specs.Prelude.{◌≡◌, length};
ghost use Rattle.record_words.specs.Words.{record_words};
ghost use Rattle.root.specs.Root.{root_of, IsRootOf};
ghost use Rattle.telemetry.specs.Frames.{Bytes};
ghost use Rattle.placer.specs.Exports.{AveragedInto, Estimated, shared_reply, ImportedInto};
ghost use Rattle.placer.specs.Step.{Stepped};
ghost use Rattle.placer.specs.Inner.Records.{words_kept};

pub mod code;

use crate::code::{answer_code, refusal_code, reply_code};
use arithmetic::pose::Pose;
use averaging::average_isometries;
use extrinsics::estimate_extrinsics_from_cam_target_poses;
use limits::POSE_FLOATS;
use placing::answer::LentAnswers;
use record_words::{record_in, write_record};
use refusal::Refusal;
use root::sqrt;
use session::{obey, wrong_length};
use session_commands::Done;
use session_record::Session;
use shared_query::shared_views;
use telemetry::import_frames;

// The square root of IEEE 754, for every double.
pub fn placer_sqrt(x: f64) -> f64
    ensures { (result ≡ root_of x) × IsRootOf x result }
{
    sqrt(x)
}

// The average of pose records, its seven numbers into `mean`. Refuses 1, 2 and 7. For C and Rust the lent list is a pointer to the first
// record and a count, and `mean` a pointer to seven doubles.
#[tactic(auto, unfolding(crate::specs::Code::code_of_averaged, crate::specs::Exports::mean_after))]
pub fn rig_average_isometries(poses: &[Pose], mean: &mut [f64; POSE_FLOATS]) -> u64
    ensures { AveragedInto poses.now mean.old result mean.new }
{
    match average_isometries(poses) {
        Ok(average) => {
            average.write(mean);
            0
        }
        Err(refusal) => refusal_code(refusal),
    }
}

// The direct call. Refuses 1 to 9.
// Kept: slices apart, as the export of this name has them from C.
pub fn placer_estimate(
    counts: &[u32],
    marks: &[u8],
    floats: &[f64],
    reference: u32,
    transforms: &mut [f64],
    chains: &mut [u8],
) -> u64
    ensures { Estimated counts.now marks.now floats.now reference transforms.old chains.old result transforms.new chains.new }
{
    let mut answers = LentAnswers { transforms, chains };
    let solved = estimate_extrinsics_from_cam_target_poses(
        counts,
        marks,
        floats,
        reference,
        &mut answers,
    );
    answer_code(solved.map(|()| 0))
}

// Obeys the one command at an offset of a stream: the session record goes in and out as words, a mask for each camera, the views, the
// cameras, the reference and the summary, all 0 in a fresh session; and `next` is set to where the next command begins. The record is written where Size,
// Pose or Withdraw is accepted, and nowhere else. Answers 0 at the end of the stream, 1 for a command accepted and 2 for a rig solved. Refuses what
// the session refuses, and words that are no record with 5.
// Kept: slices apart, as the export of this name has them from C.
#[tactic(auto, using(crate::proofs::Records::long_read))]
pub fn placer_step(
    session: &mut [u64],
    stream: &[u8],
    at: usize,
    buffer: &mut [f64],
    transforms: &mut [f64],
    chains: &mut [u8],
    next: &mut usize,
) -> u64
    ensures { Stepped session.old stream.now at buffer.old transforms.old chains.old result next.new session.new buffer.new transforms.new chains.new }
{
    let Some(record) = record_in(session) else {
        *next = stream.len();
        return refusal_code(wrong_length(stream.len()));
    };
    let mut answers = LentAnswers { transforms, chains };
    let step = obey(record, stream, at, buffer, &mut answers);
    keep_record(step.reply, step.session, session);
    *next = step.next;
    reply_code(step.reply)
}

// The record after a call: only an accepted command changes the session, and after any other reply the words are not written at all.
#[tactic(auto, unfolding(crate::specs::Inner::Records::words_kept))]
fn keep_record(reply: Result<Done, Refusal>, session: Session, words: &mut [u64])
    requires { length words.old ≡ record_words }
    ensures { words.new ≡ words_kept reply session words.old }
{
    if reply == Ok(Done::Accepted) {
        write_record(session, words);
    }
}

// How many views hold poses of both cameras, by a session record's words; nothing is written. Refuses 5, 21 and 12, and words that are no
// record with 5.
#[tactic(auto, using(crate::proofs::Replies::shared_reply_read, crate::proofs::Replies::shared_reply_unread))]
pub fn placer_shared(session: &[u64], first: u8, second: u8) -> u64
    ensures { result ≡ shared_reply session.now first second }
{
    let Some(record) = record_in(session) else {
        return refusal_code(Refusal::WrongLength);
    };
    answer_code(shared_views(record, first, second))
}

// Packed telemetry frames as Pose commands, in their order, into lent bytes, 59 a frame. Answers how many frames there were. Refuses 14, 15 and 5.
pub fn placer_frames(frames: &[u8], commands: &mut [u8]) -> u64
    ensures imported { ImportedInto frames.now commands.old result commands.new }
    ensures of_bytes { Bytes frames.now }
{
    answer_code(import_frames(frames, commands))
}
