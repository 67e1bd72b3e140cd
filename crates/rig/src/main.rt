// Reads a stream of commands from standard input, has the session obey them one after the other, and prints what each answers. What cannot be read or
// written is told on standard error.
#![tactic(auto)]

ghost use Rattle.std.specs.Prelude.{IfOk, OnOk};
ghost use Rattle.std.specs.Io.KnownBytes.{Appends};
ghost use Rattle.session_record.specs.Session.{fresh};
ghost use Rattle.session_commands.specs.Lent.{state_in};
ghost use Rattle.placing.specs.Lent.{SameAnswers};
ghost use Rattle.claims_streams.specs.Stream.{meaning};
ghost use Rattle.claims_printing.specs.Printed.{printed};
ghost use Rattle.rig.specs.AllObeyed.{AllObeyed};

use descriptors::{read_to_end, tell, write_whole};
use placing::answer::LentAnswers;
use session::{FIRST_FLOATS, MAX_STREAM, SECOND_BYTES};
use session_record::{BUFFER_FLOATS, Session};
use std::io;
use std::io::Write;
use std::process::ExitCode;
use std::time::Clock;
use stream_text::obey_stream;

// One byte more than a stream may have, so that a longer one is read far enough to be refused.
const INPUT_BYTES: usize = MAX_STREAM + 1;

// What is printed at a time: one listing, and room for some hundreds of refusals beside it.
const TEXT_BYTES: usize = 16384;

// The session in the end, and how many bytes were printed.
#[derive(Drop)]
pub struct Obeyed {
    pub session: Session,
    pub bytes: u64,
}

// An input that cannot be read to its end is not obeyed at all.
fn main(rt: HostRuntime) -> ExitCode {
    let mut input = [0u8; INPUT_BYTES];
    let length = match read_to_end(&rt, &mut rt.stdin(), &mut input) {
        Ok(length) => length,
        Err(error) => {
            tell(&rt, "rig: standard input", error);
            return ExitCode::FAILURE;
        }
    };
    let mut buffer = [0.0f64; BUFFER_FLOATS];
    let mut transforms = [0.0f64; FIRST_FLOATS];
    let mut chains = [0u8; SECOND_BYTES];
    let mut answers = LentAnswers {
        transforms: &mut transforms,
        chains: &mut chains,
    };
    match obey_all(
        &rt,
        &mut rt.stdout(),
        &input[..length],
        &mut buffer,
        &mut answers,
    ) {
        Ok(_) => ExitCode::SUCCESS,
        Err(error) => {
            tell(&rt, "rig: standard output", error);
            ExitCode::FAILURE
        }
    }
}

// The whole stream obeyed from a fresh session on, in calls that each print what the text holds: the calls that `rounds_from` of crates/claims_printing tells of.
// An output that cannot be written to ends the stream.
fn obey_all<C: Clock, W: Write>(
    clock: &C,
    output: &mut W,
    stream: &[u8],
    buffer: &mut [f64],
    answers: &mut LentAnswers<'_>,
) -> io::Result<Obeyed>
    ensures obeyed { IfOk result (λ obeyed. AllObeyed (state_in fresh buffer.old answers.old) stream.now obeyed buffer.new answers.new.transforms.now answers.new.chains.now) }
    // Where the output's bytes are known, these are the ones that the stream's meaning prints.
    ensures printed { OnOk result (Appends (W.contents output.old) (W.contents output.new) (printed (meaning (state_in fresh buffer.old answers.old) stream.now))) }
    ensures same { SameAnswers answers.old answers.new }
{
    let mut text = [0u8; TEXT_BYTES];
    let mut session = session_record::fresh();
    let mut bytes = 0;
    let mut at = 0;
    loop {
        let part = obey_stream(session, stream, at, buffer, answers, &mut text);
        session = part.session;
        at = part.next;
        let length = part.length;
        let written = write_whole(clock, output, &text[..length])?;
        bytes += written as u64;
        if stream.len() <= at {
            return Ok(Obeyed { session, bytes });
        }
    }
}
