// The command Size: checked in the papers' order; where it is refused it changes nothing.
ghost use Rattle.std.specs.Prelude.{ℕ, ◌≡◌, List, Float};
ghost use Rattle.command.specs.Command.{size, edit};
ghost use Rattle.shared_counts.specs.Summary.{summary_of};
ghost use Rattle.session_record.specs.Session.{session_of};
ghost use Rattle.session_commands.specs.Obeyed.{state, obeyed};
ghost use Rattle.session_commands.specs.Inner.Turns.{turn_result, edit_turn};

use inputs::check_sizes;
use refusal::Refusal;
use session_record::Held;

// 22, then 1 to 3 as the direct call has them. The masks stay, and so their summary does.
#[tactic(auto, unfolding(inputs::specs::Inputs::checked_of, crate::specs::Obeyed::obeyed))]
pub fn obey_size(held: &mut Held, views: u8, cameras: u8, reference: u8) -> Result<(), Refusal>
    ensures { (shared : List ℕ) (b f : List Float) (g : List ℕ) (next : ℕ) → shared ≡ summary_of held.old.masks → turn_result (edit_turn held.new result next) shared b f g ≡ obeyed (state (session_of held.old shared) b f g) (edit (size views cameras reference)) next }
{
    if held.views != 0 {
        return Err(Refusal::SizeAgain);
    }
    check_sizes(
        usize::from(views),
        usize::from(cameras),
        usize::from(reference),
    )?;
    *held = held.with_sizes(views, cameras, reference);
    Ok(())
}
