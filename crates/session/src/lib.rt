// The session: poses arrive as commands in a stream of bytes, one command a call, and Solve answers as the direct call would.

#![tactic(auto)]

ghost use Rattle.std.specs.Prelude.{◌≡◌, cond, ltb};
ghost use Rattle.refusal.specs.declared.Refusal.TheVariants.{TooLong, WrongLength};
ghost use Rattle.inputs.specs.Inputs.{checked_of};
ghost use Rattle.session_commands.specs.Obeyed.{state};
ghost use Rattle.session_commands.specs.Lent.{state_in};
ghost use Rattle.placing.specs.Lent.{SameAnswers};
ghost use Rattle.session.specs.Call.{max_stream, call_refusal, Called};

pub mod commands;

use crate::commands::obey_command;
use limits::{CHAIN_BYTES, MAX_CAMERAS, MAX_VIEWS, POSE_FLOATS};
use placing::answer::{GivenAnswers, LentAnswers};
use refusal::Refusal;
pub use session_commands::{Done, Turn};
use session_record::check::is_possible;
use session_record::{BUFFER_FLOATS, Held, Session};

// The most bytes of a stream.
pub const MAX_STREAM: usize = 65536;

// The least floats of the first answer, and the least bytes of the second: for as many cameras and views as a rig may have.
pub const FIRST_FLOATS: usize = POSE_FLOATS * (MAX_CAMERAS + MAX_VIEWS);

pub const SECOND_BYTES: usize = CHAIN_BYTES * MAX_CAMERAS;

// What lengths that do not fit are refused with, beside a stream of so many bytes: 13 comes before 5.
pub fn wrong_length(stream: usize) -> Refusal
    ensures { result ≡ cond (ltb max_stream stream) TooLong WrongLength }
{
    if MAX_STREAM < stream {
        Refusal::TooLong
    } else {
        Refusal::WrongLength
    }
}

// The reply, the session after it, and the offset of the next command.
#[derive(Clone, Copy)]
pub struct Step {
    pub session: Session,
    pub reply: Result<Done, Refusal>,
    pub next: usize,
}

// 13, then 5, and 11 for an offset past the end.
#[tactic(auto, using(std::proofs::lemmas::Bool::Decides::nat_tests, crate::proofs::Calling::call_refusal_is), unfolding(inputs::specs::Inputs::checked_of, refusal::specs::Table::refuse_if, refusal::specs::Table::first_of))]
pub fn check_call(
    session: &Session,
    stream: &[u8],
    at: usize,
    buffer: &[f64],
    answers: &GivenAnswers<'_>,
) -> Result<(), Refusal>
    ensures { result ≡ checked_of (call_refusal (state session.now buffer.now answers.now.transforms.now answers.now.chains.now) stream.now at) }
{
    let end = stream.len();
    if MAX_STREAM < end {
        return Err(Refusal::TooLong);
    }
    if buffer.len() != BUFFER_FLOATS
        || answers.transforms.len() < FIRST_FLOATS
        || answers.chains.len() < SECOND_BYTES
        || !is_possible(session)
    {
        return Err(Refusal::WrongLength);
    }
    if end < at {
        return Err(Refusal::Truncated(end as u32));
    }
    Ok(())
}

// Obeys the one command at an offset of the stream. The buffer holds the coordinates; the two answers are written by Solve alone.
// Kept: buffer and answers side by side: Solve reads the one while it writes the others, so that a struct of all three would be taken apart again there.
#[tactic(auto, using(crate::proofs::PassedCalls::call_passed, crate::proofs::Calling::call_is, crate::proofs::Calling::called), unfolding(inputs::specs::Inputs::checked_of))]
pub fn obey(
    session: Session,
    stream: &[u8],
    at: usize,
    buffer: &mut [f64],
    answers: &mut LentAnswers<'_>,
) -> Step
    ensures called { Called (state_in session buffer.old answers.old) stream.now at result buffer.new answers.new.transforms.now answers.new.chains.now }
    ensures same { SameAnswers answers.old answers.new }
{
    let end = stream.len();
    if let Err(refusal) = check_call(&session, stream, at, buffer, &answers.given()) {
        return Step {
            session,
            reply: Err(refusal),
            next: end,
        };
    }
    if at == end {
        return Step {
            session,
            reply: Ok(Done::End),
            next: end,
        };
    }
    // Kept: field by field: by `Held::from` and `with_summary`, which take what they are handed by value, a call by C takes a tenth longer.
    let mut held = Held {
        masks: session.masks,
        views: session.views,
        cameras: session.cameras,
        reference: session.reference,
    };
    let mut shared = session.shared;
    let turn = obey_command(&mut held, stream, at, &mut shared, buffer, answers);
    Step {
        session: Session {
            masks: held.masks,
            views: held.views,
            cameras: held.cameras,
            reference: held.reference,
            shared,
        },
        reply: turn.reply,
        next: turn.next,
    }
}
