// The commands of a stream: what stands at an offset says which of them is obeyed.
ghost use Rattle.std.specs.Prelude.{◌<◌, ◌≡◌, length, None};
ghost use Rattle.command.specs.Command.{parse};
ghost use Rattle.session_record.specs.Session.{session_of};
ghost use Rattle.session.specs.Call.{call_refusal, read};
ghost use Rattle.session_commands.specs.Inner.Turns.{turn, turn_result};
ghost use Rattle.session_commands.specs.Lent.{state_in};
ghost use Rattle.placing.specs.Lent.{SameAnswers};

use command::parse::{Kind, ParseError, parse};
use placing::answer::LentAnswers;
use refusal::Refusal;
use session_commands::Turn;
use session_commands::cell::NamedCell;
use session_commands::pose::obey_pose;
use session_commands::size::obey_size;
use session_commands::solve::obey_solve;
use session_commands::withdraw::obey_withdraw;
use session_record::Held;
use shared_counts::SUMMARY_ENTRIES;

// The command at an offset before the end: 10, 11, or what the command itself does. What is held and the summary are changed where they stand.
#[tactic(auto, using(crate::proofs::PassedCalls::call_passed, session_commands::proofs::PossibleRecords::record_parts), unfolding(crate::specs::Call::read))]
pub fn obey_command(
    held: &mut Held,
    stream: &[u8],
    at: usize,
    shared: &mut [u8; SUMMARY_ENTRIES],
    buffer: &mut [f64],
    answers: &mut LentAnswers<'_>,
) -> Turn
    requires { (call_refusal (state_in (session_of held.old shared.old) buffer.old answers.old) stream.now at ≡ None) × (at < length stream.now) }
    ensures obeyed { turn_result (turn held.new result.reply result.next) shared.new buffer.new answers.new.transforms.now answers.new.chains.now ≡ read (state_in (session_of held.old shared.old) buffer.old answers.old) stream.now at (parse stream.now at) }
    ensures same { SameAnswers answers.old answers.new }
{
    match parse(stream, at) {
        Err(ParseError::Unknown(byte)) => Turn {
            reply: Err(Refusal::UnknownCommand(u32::from(byte))),
            next: stream.len(),
        },
        Err(ParseError::Broken) => Turn {
            reply: Err(Refusal::Truncated(at as u32)),
            next: stream.len(),
        },
        Ok(kind) => {
            let next = at + kind.width();
            let edit = match kind {
                Kind::Size => obey_size(held, stream[at + 1], stream[at + 2], stream[at + 3]),
                Kind::Pose => obey_pose(held, stream, at, shared, buffer),
                Kind::Withdraw => obey_withdraw(
                    held,
                    NamedCell {
                        view: stream[at + 1],
                        camera: stream[at + 2],
                    },
                    shared,
                ),
                Kind::Solve => {
                    return Turn {
                        reply: obey_solve(*held, buffer, answers),
                        next,
                    };
                }
            };
            Turn::edited(edit, next)
        }
    }
}
