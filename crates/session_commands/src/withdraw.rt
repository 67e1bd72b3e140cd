// The command Withdraw: checked in the papers' order; where it is refused it changes nothing.
ghost use Rattle.std.specs.Prelude.{ℕ, ◌≡◌, true, List, get_or, Float};
ghost use Rattle.lists.specs.Masks.{in_mask};
ghost use Rattle.command.specs.Command.{withdraw, edit};
ghost use Rattle.shared_counts.specs.Summary.{summary_of};
ghost use Rattle.session_record.specs.Session.{session_of, possible};
ghost use Rattle.session_commands.specs.Withdraw.{held_after_withdraw};
ghost use Rattle.session_commands.specs.Obeyed.{state, obeyed};
ghost use Rattle.session_commands.specs.Inner.Turns.{turn_result, edit_turn};

use crate::cell::{NamedCell, is_held};
use refusal::Refusal;
use session_record::Held;
use shared_counts::{Cell, SUMMARY_ENTRIES, remove_view};

// One cell fewer, which is held, and one view fewer in the summary.
#[tactic(auto, using(crate::proofs::HeldViews::cleared_by_xor), unfolding(crate::specs::Withdraw::held_after_withdraw))]
fn release(held: &mut Held, cell: Cell, shared: &mut [u8; SUMMARY_ENTRIES])
    requires held { in_mask (get_or held.old.masks cell.camera 0) cell.view ≡ true }
    requires summed { shared.old ≡ summary_of held.old.masks }
    ensures held { held.new ≡ held_after_withdraw held.old cell.view cell.camera }
    ensures summed { shared.new ≡ summary_of (held_after_withdraw held.old cell.view cell.camera).masks }
{
    remove_view(&held.masks, shared, cell);
    held.masks[usize::from(cell.camera)] ^= 1 << cell.view;
}

// 21, then 12 and 24. An accepted Withdraw clears one bit, counts its view no more and writes no float.
#[tactic(auto, using(crate::proofs::PossibleRecords::record_parts), unfolding(crate::specs::Obeyed::obeyed, crate::specs::Withdraw::withdraw_command_refusal))]
pub fn obey_withdraw(
    held: &mut Held,
    named: NamedCell,
    shared: &mut [u8; SUMMARY_ENTRIES],
) -> Result<(), Refusal>
    requires { possible (session_of held.old shared.old) ≡ true }
    ensures { (b f : List Float) (g : List ℕ) (next : ℕ) → turn_result (edit_turn held.new result next) shared.new b f g ≡ obeyed (state (session_of held.old shared.old) b f g) (edit (withdraw named.view named.camera)) next }
{
    let cell = named.check(held)?;
    if !is_held(held, cell) {
        return Err(Refusal::NotHeld(named.detail()));
    }
    release(held, cell, shared);
    Ok(())
}
