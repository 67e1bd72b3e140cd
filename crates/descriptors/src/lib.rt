// Reading a stream to its end, and writing to one: a call that was interrupted is made again, and so is, after a pause, one that found the stream
// not ready; any other failure is told.
#![tactic(auto)]

ghost use Rattle.std.specs.Prelude.{ℕ, ◌≡◌, ◌<◌, ◌⊎◌, length, take, IfOk, IfErr, OnOk};
ghost use Rattle.std.specs.Io.{StartsWith};
ghost use Rattle.std.specs.Io.KnownBytes.{Appends, Consumes, IsAtEnd};
ghost use Rattle.std.specs.IoError.{error_kind};
ghost use Rattle.descriptors.specs.Moved.{IsTold, ReadWithin, WrittenWhole};

use std::io::{Cursor, Error, ErrorKind, Read, Write};
use std::time::{Clock, Duration};
use std::{io, thread};

// Calls that are made at most, so that each loop ends: more than a machine makes in its life.
const MOST_CALLS: u64 = 9223372036854775807;

// How long is waited for a stream that is not ready, so that waiting leaves the processor to others: a millisecond.
const PAUSE_NANOSECONDS: u64 = 1000000;

// More than the system's words for a failure take.
const WORDS_BYTES: usize = 300;

// Whether a call that failed is to be made again; where the stream was not ready, after a pause.
fn wait_or_fail<C: Clock>(clock: &C, error: Error) -> io::Result<()>
    ensures again { OnOk result ((error_kind error ≡ ErrorKind.Interrupted) ⊎ (error_kind error ≡ ErrorKind.WouldBlock)) }
    ensures failed { IfErr result (λ e. (e ≡ error) × IsTold e) }
{
    match error.kind() {
        ErrorKind::Interrupted => Ok(()),
        ErrorKind::WouldBlock => {
            thread::sleep(clock, Duration::from_nanos(PAUSE_NANOSECONDS));
            Ok(())
        }
        _ => Err(error),
    }
}

// Reads until the input ends or the memory is full, and answers how many bytes stand at the memory's front.
pub fn read_to_end<C: Clock, R: Read>(
    clock: &C,
    input: &mut R,
    memory: &mut [u8],
) -> io::Result<usize>
    ensures within { ReadWithin result memory.new }
    // Where the input's bytes are known, these are the next of them, and the last where they do not fill the memory.
    ensures bytes { IfOk result (λ n. Consumes (R.remaining input.old) (R.remaining input.new) (take n memory.new)) }
    ensures end { IfOk result (λ n. n < length memory.new → IsAtEnd (R.remaining input.new)) }
    ensures failed { IfErr result IsTold }
{
    // Kept: how much is done, beside the memory, since it is the answer.
    let mut done = 0;
    for _ in 0..MOST_CALLS {
        if done == memory.len() {
            return Ok(done);
        }
        match input.read(&mut memory[done..]) {
            Ok(0) => return Ok(done),
            Ok(got) => done += got,
            Err(error) => wait_or_fail(clock, error)?,
        }
    }
    Err(Error::from(ErrorKind::TimedOut))
}

// Writes all of the bytes, and answers how many these are; or fails where a call failed or took nothing, when some may have been written.
pub fn write_whole<C: Clock, W: Write>(clock: &C, output: &mut W, bytes: &[u8]) -> io::Result<usize>
    ensures whole { WrittenWhole result bytes.now }
    ensures bytes { OnOk result (Appends (W.contents output.old) (W.contents output.new) bytes.now) }
    ensures front { IfErr result (λ e. (n : ℕ) × Appends (W.contents output.old) (W.contents output.new) (take n bytes.now)) }
    ensures failed { IfErr result IsTold }
{
    // Kept: how much is done, beside the memory, since it is the answer.
    let mut done = 0;
    for _ in 0..MOST_CALLS {
        if done == bytes.len() {
            return Ok(done);
        }
        match output.write(&bytes[done..]) {
            Ok(0) => return Err(Error::from(ErrorKind::WriteZero)),
            Ok(put) => done += put,
            Err(error) => wait_or_fail(clock, error)?,
        }
    }
    Err(Error::from(ErrorKind::TimedOut))
}

// Tells on standard error, in one line, what failed, and why, in the system's words.
pub fn tell<R: Eprint>(rt: &R, what: &str, error: Error) {
    let mut words = Cursor::new([0u8; WORDS_BYTES]);
    let _whole = write!(words, "{error}");
    let length = WORDS_BYTES.min(words.position() as usize);
    let room = words.into_inner();
    let text = str::from_utf8(&room[..length]).unwrap_or("");
    let reason = without_number(text);
    let _told = eprintln!(rt; "{what}: {reason}");
}

// The words of a failure, without the number that std puts behind what the system says.
fn without_number(text: &str) -> &str
    ensures { StartsWith text.now result.now }
{
    match text.split_once(" (os error ") {
        Some((words, _)) => words,
        None => text,
    }
}
