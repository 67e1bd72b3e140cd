// Reads packed telemetry frames from standard input and writes their Pose commands to standard output, for a pipe into `rig`. A refusal is one line on standard
// error, and then nothing goes to standard output. What cannot be read or written is told on standard error, too.
#![tactic(auto)]

ghost use Rattle.std.specs.Prelude.{◌≤◌, ◌≡◌, length, take, IfOk, IfErr, OnOk};
ghost use Rattle.listing.specs.Listing.{listing_bytes};
ghost use Rattle.descriptors.specs.Moved.{IsTold};
ghost use Rattle.frames.specs.Told.{Told};
ghost use Rattle.frames.specs.Turned.{Taken, Turned, Untold};
ghost use Rattle.frames.specs.Inner.Room.{input_bytes, max_commands, room_for};

use command::parse::POSE_WIDTH;
use descriptors::{read_to_end, tell, write_whole};
use listing::{LISTING_BYTES, write_refusal};
use putting::Writer;
use std::io;
use std::io::{Error, ErrorKind, Read, Write};
use std::process::ExitCode;
use std::time::Clock;
use telemetry::{FRAME_BYTES, MAX_FRAMES, import_frames, shortened};

// More than a file of frames may have; what a longer one has beyond it is read, and not kept.
const INPUT_BYTES: usize = 65536;

const COMMAND_BYTES: usize = POSE_WIDTH * MAX_FRAMES;

// The memory is filled so often at most, so that the loop ends: that takes 2^78 bytes, more than is ever read.
const MOST_FILLINGS: u64 = 9223372036854775807;

// What failed: reading the input, or writing the commands, or the line of a refusal.
#[derive(Drop)]
pub enum Failed {
    Input(Error),
    Output(Error),
    Line(Error),
}

fn main(rt: HostRuntime) -> ExitCode {
    match turn_input(&rt, &mut rt.stdin(), &mut rt.stdout(), &mut rt.stderr()) {
        Ok(()) => ExitCode::SUCCESS,
        // Where standard error fails, it cannot be told there.
        Err(Failed::Line(_)) => ExitCode::FAILURE,
        Err(Failed::Input(error)) => {
            tell(&rt, "frames: standard input", error);
            ExitCode::FAILURE
        }
        Err(Failed::Output(error)) => {
            tell(&rt, "frames: standard output", error);
            ExitCode::FAILURE
        }
    }
}

// The whole input turned into commands on one output, or refused by a line on the other. An input that cannot be read to its end is not turned at all.
fn turn_input<C: Clock, I: Read, O: Write, E: Write>(
    clock: &C,
    input: &mut I,
    output: &mut O,
    errors: &mut E,
) -> Result<(), Failed>
    // Where std knows the input's bytes, all that were left are read; and where it knows an output's, those that belong there for them are added.
    ensures turned { OnOk result (Turned (I.remaining input.old) (I.remaining input.new) (O.contents output.old) (O.contents output.new) (E.contents errors.old) (E.contents errors.new)) }
    ensures failed { IfErr result (λ failed. Untold failed (I.remaining input.old) (I.remaining input.new) (O.contents output.old) (O.contents output.new) (E.contents errors.old) (E.contents errors.new)) }
{
    let mut memory = [0u8; INPUT_BYTES];
    let kept = match read_frames(clock, input, &mut memory) {
        Ok(kept) => kept,
        Err(error) => return Err(Failed::Input(error)),
    };
    let mut commands = [0u8; COMMAND_BYTES];
    let mut line = [0u8; LISTING_BYTES];
    match turn_frames(&memory[..kept], &mut commands, &mut line) {
        Ok(put) => match write_whole(clock, output, &commands[..put]) {
            Ok(_) => Ok(()),
            Err(error) => Err(Failed::Output(error)),
        },
        Err(told) => match write_whole(clock, errors, &line[..told]) {
            Ok(_) => Ok(()),
            Err(error) => Err(Failed::Line(error)),
        },
    }
}

// Reads the input to its end, and answers how many bytes at the memory's front stand for it: where it is longer than any that passes, they are refused alike.
fn read_frames<C: Clock, I: Read>(clock: &C, input: &mut I, memory: &mut [u8]) -> io::Result<usize>
    requires { length memory.old ≡ input_bytes }
    ensures taken { IfOk result (λ kept. (kept ≤ length memory.new) × Taken (I.remaining input.old) (I.remaining input.new) (take kept memory.new)) }
    ensures failed { IfErr result IsTold }
{
    // Kept: how much is kept, beside the memory, since it is the answer.
    let mut kept = 0;
    for _ in 0..MOST_FILLINGS {
        let got = read_to_end(clock, input, &mut memory[kept..])?;
        kept += got;
        if kept < INPUT_BYTES {
            return Ok(kept);
        }
        kept = shortened(kept);
    }
    Err(Error::from(ErrorKind::TimedOut))
}

// How many bytes the commands of so many bytes of frames take; none where there are too many frames.
fn room_for(frames: usize) -> usize
    ensures { (result ≡ room_for frames) × (result ≤ max_commands) }
{
    let count = frames / FRAME_BYTES;
    if MAX_FRAMES < count {
        return 0;
    }
    POSE_WIDTH * count
}

// How many bytes the commands of the frames take, for standard output; or the line of what they are refused with, for standard error.
fn turn_frames(frames: &[u8], commands: &mut [u8], line: &mut [u8]) -> Result<usize, usize>
    requires { (max_commands ≤ length commands.old) × (listing_bytes ≤ length line.old) }
    ensures { Told frames.now result commands.new line.new }
{
    let room = room_for(frames.len());
    match import_frames(frames, &mut commands[..room]) {
        Ok(_) => Ok(room),
        Err(refusal) => {
            let mut writer = Writer::new(line);
            write_refusal(refusal, &mut writer);
            Err(writer.used)
        }
    }
}
