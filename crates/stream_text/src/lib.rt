// A whole stream obeyed, command after command, with the text that it prints in lent memory.
#![tactic(auto)]

ghost use Rattle.std.specs.Prelude.{◌≡◌, None, length};
ghost use Rattle.session.specs.Call.{call_refusal};
ghost use Rattle.session_commands.specs.Lent.{state_in};
ghost use Rattle.placing.specs.Lent.{SameAnswers};
ghost use Rattle.stream_text.specs.StreamText.{part_within, Leaves, ObeyedInto};

use listing::{LISTING_BYTES, write_refusal, write_reply};
use placing::answer::LentAnswers;
use putting::Writer;
use refusal::Refusal;
use session::commands::obey_command;
use session::{check_call, wrong_length};
use session_record::{Held, Session};

// The session after the commands obeyed, whether the text was refused, the offset of the next command, and the bytes of the text in use.
// Kept: a refusal of the text beside the rest, and not in its place: what it leaves, session, offset and length, is told by the same clauses.
#[derive(Clone, Copy)]
pub struct StreamText {
    pub session: Session,
    pub refused: Result<(), Refusal>,
    pub next: usize,
    pub length: usize,
}

// Once the checks before all else have passed: command after command, while the text surely holds the next reply. The record is not checked
// again, since every command leaves one that passes, and its summary is changed where it stands.
fn obey_commands(
    session: Session,
    stream: &[u8],
    at: usize,
    buffer: &mut [f64],
    answers: &mut LentAnswers<'_>,
    text: &mut [u8],
) -> StreamText
    requires { call_refusal (state_in session buffer.old answers.old) stream.now at ≡ None }
    ensures passed { result.refused ≡ Ok tt }
    ensures leaves { Leaves (part_within (length stream.now) (state_in session buffer.old answers.old) stream.now at (length text.old)) result buffer.new answers.new.transforms.now answers.new.chains.now text.old text.new }
    ensures same { SameAnswers answers.old answers.new }
{
    let mut writer = Writer::new(text);
    let mut shared = session.shared;
    let mut held = Held::from(session);
    let mut at = at;
    while (at < stream.len()) & (LISTING_BYTES <= writer.room()) {
        let turn = obey_command(&mut held, stream, at, &mut shared, buffer, answers);
        write_reply(turn.reply, held, &answers.given(), &mut writer);
        at = turn.next;
    }
    StreamText {
        session: held.with_summary(shared),
        refused: Ok(()),
        next: at,
        length: writer.used,
    }
}

// Obeys the stream from an offset on, command after command, and puts what they print at the front of `text`, until the text may not hold the next
// reply or the stream ends. Text that may not hold every reply, of fewer than LISTING_BYTES, is refused before anything is obeyed.
pub fn obey_stream(
    session: Session,
    stream: &[u8],
    at: usize,
    buffer: &mut [f64],
    answers: &mut LentAnswers<'_>,
    text: &mut [u8],
) -> StreamText
    ensures obeyed { ObeyedInto (state_in session buffer.old answers.old) stream.now at result buffer.new answers.new.transforms.now answers.new.chains.now text.old text.new }
    ensures same { SameAnswers answers.old answers.new }
{
    let end = stream.len();
    if text.len() < LISTING_BYTES {
        return StreamText {
            session,
            refused: Err(wrong_length(end)),
            next: end,
            length: 0,
        };
    }
    if let Err(refusal) = check_call(&session, stream, at, buffer, &answers.given()) {
        let mut writer = Writer::new(text);
        write_refusal(refusal, &mut writer);
        return StreamText {
            session,
            refused: Ok(()),
            next: end,
            length: writer.used,
        };
    }
    obey_commands(session, stream, at, buffer, answers, text)
}
