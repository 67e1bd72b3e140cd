// The command Solve: checked in the papers' order; where it is refused it writes nothing.
ghost use Rattle.std.specs.Prelude.{ℕ, ◌≤◌, ◌≡◌, true, List, length};
ghost use Rattle.command.specs.Command.{solve};
ghost use Rattle.session_record.specs.Session.{session_of, buffer_length, possible_held};
ghost use Rattle.session_commands.specs.Obeyed.{first_length, second_length, state, obeyed};
ghost use Rattle.placing.specs.Lent.{SameAnswers};
ghost use Rattle.session_commands.specs.Inner.Turns.{turn, turn_result};

use crate::Done;
use limits::MAX_CAMERAS;
use placing::answer::LentAnswers;
use placing::grid::{Observations, Rig};
use refusal::Refusal;
use session_record::Held;

// 21, then 7 to 9 as the direct call has them on the grid that masks and buffer hold.
#[tactic(auto, using(crate::proofs::SolveCommands::session_fits), unfolding(crate::specs::Obeyed::obeyed, extrinsics::specs::Outcome::outcome_of, extrinsics::specs::Outcome::answered))]
pub fn obey_solve(
    held: Held,
    buffer: &[f64],
    answers: &mut LentAnswers<'_>,
) -> Result<Done, Refusal>
    requires { (possible_held held ≡ true) × (length buffer.now ≡ buffer_length) × (first_length ≤ length answers.old.transforms.now) × (second_length ≤ length answers.old.chains.now) }
    ensures obeyed { (shared : List ℕ) (next : ℕ) → turn_result (turn held result next) shared buffer.now answers.new.transforms.now answers.new.chains.now ≡ obeyed (state (session_of held shared) buffer.now answers.old.transforms.now answers.old.chains.now) solve next }
    ensures same { SameAnswers answers.old answers.new }
{
    if held.views == 0 {
        return Err(Refusal::NoSize);
    }
    let masks = held.masks;
    let rig = Rig {
        masks,
        views: usize::from(held.views),
        cameras: usize::from(held.cameras),
        reference: usize::from(held.reference),
        stride: MAX_CAMERAS,
    };
    let seen = Observations {
        rig,
        floats: buffer,
    };
    extrinsics::solve(&seen, answers)?;
    Ok(Done::Solved)
}
