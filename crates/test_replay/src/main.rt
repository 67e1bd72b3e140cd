// Replays a sample that was recorded from the Rust, without Rust at hand: square roots, and streams of commands. `stdin` has the
// sample, and `stdout` what the Rust's side answers to it. `sh tests/record.sh SOURCE` makes both anew, from seed 7 and the source of
// calibration-rs, commit 1c21d7f0aa.
#![tactic(auto)]

ghost use Rattle.std.specs.Prelude.{◌≤◌, IfSome, length};

use placing::answer::LentAnswers;
use root::sqrt;
use session::{FIRST_FLOATS, SECOND_BYTES};
use session_record::BUFFER_FLOATS;
use std::io;
use std::io::Read;
use test_calls::print_calls;

// The sample begins with a text that says how it was made, which is printed. Then come the number of roots and the doubles to take
// them of, and after them streams, each behind its length. Numbers and doubles are 64 bits, low byte first.
const HEADER_BYTES: usize = 256;

const WORD_BYTES: usize = 8;

// More streams, and longer ones, than any sample has: what comes behind so many, or from a longer one on, is not replayed.
const MOST_STREAMS: usize = 65536;

const MOST_STREAM: usize = 4096;

// The pattern that stands for every NaN, and the bit of a double's sign.
const NAN: u64 = 0x7ff8_0000_0000_0000;

const SIGN: u64 = 0x8000_0000_0000_0000;

const INFINITY: u64 = 0x7ff0_0000_0000_0000;

fn main(rt: HostRuntime) -> io::Result<()> {
    let mut input = rt.stdin();
    let mut header = [0u8; HEADER_BYTES];
    let _whole = input.read_exact(&mut header);
    rt.write_all(&header)?;
    let roots = next_word(&mut input);
    replay_roots(&rt, &mut input, roots)?;
    let mut stream = [0u8; MOST_STREAM];
    replay_streams(&rt, &mut input, &mut stream)
}

// The next number of the sample, and 0 where there is none: of one that the sample breaks off in, the bytes that are there count.
// Kept: a number and no Option, which would lose those bytes.
fn next_word<R: Read>(input: &mut R) -> u64 {
    let mut bytes = [0u8; WORD_BYTES];
    let _whole = input.read_exact(&mut bytes);
    u64::from_le_bytes(bytes)
}

fn replay_roots<P: Print, R: Read>(rt: &P, input: &mut R, count: u64) -> io::Result<()> {
    for _ in 0..count {
        let word = next_word(input);
        let root = root_of_pattern(word);
        println!(rt; "{word:016x} {root:016x}")?;
    }
    Ok(())
}

fn root_of_pattern(word: u64) -> u64 {
    if INFINITY < word % SIGN {
        return NAN;
    }
    pattern_of(sqrt(f64::from_bits(word)))
}

fn pattern_of(x: f64) -> u64 {
    if x.is_nan() { NAN } else { f64::to_bits(x) }
}

fn replay_streams<P: Print, R: Read>(rt: &P, input: &mut R, memory: &mut [u8]) -> io::Result<()> {
    // Kept: a counted loop: nothing tells how much an input still holds, so that a `loop` has no measure.
    for _ in 0..MOST_STREAMS {
        let Some(length) = next_stream(input, memory) else {
            return Ok(());
        };
        println!(rt; "stream of {length}")?;
        replay_stream(rt, &memory[..length])?;
    }
    Ok(())
}

// The length of the next stream of the sample, which then stands at the front of the memory; none where there is no more, or where it is longer.
fn next_stream<R: Read>(input: &mut R, memory: &mut [u8]) -> Option<usize>
    ensures { IfSome result (λ bytes. bytes ≤ length memory.new) }
{
    let length = next_word(input) as usize;
    if (length == 0) | (memory.len() < length) {
        return None;
    }
    input.read_exact(&mut memory[..length]).ok()?;
    Some(length)
}

// The whole stream obeyed from a fresh session on, in memory of its own.
fn replay_stream<P: Print>(rt: &P, stream: &[u8]) -> io::Result<()> {
    let mut buffer = [0.0f64; BUFFER_FLOATS];
    let mut transforms = [0.0f64; FIRST_FLOATS];
    let mut chains = [0u8; SECOND_BYTES];
    let mut answers = LentAnswers {
        transforms: &mut transforms,
        chains: &mut chains,
    };
    print_calls(
        rt,
        |_| Ok(()),
        session_record::fresh(),
        stream,
        0,
        &mut buffer,
        &mut answers,
    )?;
    Ok(())
}
