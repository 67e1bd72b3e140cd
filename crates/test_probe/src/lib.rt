// Tests: the product and the inverses of poses, exported so that the arithmetic can be held to the Rust's on any numbers at all; and whole streams
// obeyed with what they print in memory, exported so that they can be timed. The library has none of these: no paper names the first two, and it takes
// finite poses alone.
#![tactic(auto)]

ghost use Rattle.test_probe.specs.Exports.{Multiplied, Inverted};
ghost use Rattle.test_probe.specs.Streams.{Printed};

mod lengths;
mod poses;
mod streams;

use crate::lengths::{check_poses, check_text};
use crate::poses::{product_of, write_inverses};
use crate::streams::{ByCommands, ByParts, Memory, Printing, count_printed};
use placer::code::refusal_code;
use placing::answer::LentAnswers;
use putting::Writer;
use session::{FIRST_FLOATS, SECOND_BYTES};
use session_record::BUFFER_FLOATS;

// The product of poses, in order, into the first seven floats of `product`; of no poses the identity. Refuses 5.
#[tactic(auto, using(crate::proofs::Replies::room_holds))]
#[unsafe(no_mangle)]
pub extern "C" fn probe_product(poses: &[f64], product: &mut [f64]) -> u64
    ensures { Multiplied poses.now product.old result product.new }
{
    if let Err(refusal) = check_poses(poses.len(), product.len(), 7) {
        return refusal_code(refusal);
    }
    product_of(poses).write(product);
    0
}

// The inverse of each pose, each at its own place in `inverses`. Refuses 5.
#[tactic(auto, using(crate::proofs::Replies::room_holds))]
#[unsafe(no_mangle)]
pub extern "C" fn probe_inverses(poses: &[f64], inverses: &mut [f64]) -> u64
    ensures { Inverted poses.now inverses.old result inverses.new }
{
    if let Err(refusal) = check_poses(poses.len(), inverses.len(), poses.len()) {
        return refusal_code(refusal);
    }
    write_inverses(poses, inverses);
    0
}

// A whole stream obeyed from a fresh session on, by calls of the whole-stream entry that are each lent the same text, until the next offset is the stream's
// end. Answers how many bytes they print in all, modulo 2^64; the text then begins with what the last call printed. Refuses 5 and 13, for text that may not
// hold every reply, which is then left as it is.
#[unsafe(no_mangle)]
pub extern "C" fn probe_stream(stream: &[u8], text: &mut [u8]) -> u64
    ensures { Printed stream.now text.old result text.new }
{
    print_stream::<ByParts>(stream, text)
}

// The same by calls for one command each, which all check the record.
#[unsafe(no_mangle)]
pub extern "C" fn probe_calls(stream: &[u8], text: &mut [u8]) -> u64
    ensures { Printed stream.now text.old result text.new }
{
    print_stream::<ByCommands>(stream, text)
}

// What both do, in memory of their own.
#[tactic(auto, using(crate::proofs::Replies::printed_counted, crate::proofs::Replies::text_holds))]
fn print_stream<P: Printing>(stream: &[u8], text: &mut [u8]) -> u64
    ensures { Printed stream.now text.old result text.new }
{
    if let Err(refusal) = check_text(stream, text.len()) {
        return refusal_code(refusal);
    }
    let mut buffer = [0.0f64; BUFFER_FLOATS];
    let mut transforms = [0.0f64; FIRST_FLOATS];
    let mut chains = [0u8; SECOND_BYTES];
    let answers = LentAnswers {
        transforms: &mut transforms,
        chains: &mut chains,
    };
    let text = Writer::new(text);
    let mut memory = Memory {
        buffer: &mut buffer,
        answers,
        text,
    };
    count_printed::<P>(stream, &mut memory)
}
