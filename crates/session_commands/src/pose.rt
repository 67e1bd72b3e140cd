// The command Pose: checked in the papers' order; where it is refused it changes nothing.
ghost use Rattle.std.specs.Prelude.{ℕ, ◌+◌, ◌≤◌, ◌≡◌, true, false, List, length, get_or, Float};
ghost use Rattle.lists.specs.Masks.{in_mask};
ghost use Rattle.command.specs.Command.{edit, pose_width};
ghost use Rattle.command.specs.Inner.Parts.{place_at};
ghost use Rattle.shared_counts.specs.Summary.{summary_of};
ghost use Rattle.session_record.specs.Session.{session_of, buffer_length, possible};
ghost use Rattle.session_commands.specs.Pose.{held_after_pose, buffer_after_pose};
ghost use Rattle.session_commands.specs.Obeyed.{state, obeyed};
ghost use Rattle.session_commands.specs.Inner.Turns.{turn_result, edit_turn};

use crate::cell::{NamedCell, is_held};
use arithmetic::pose::Pose;
use command::bytes::read_finite_pose;
use limits::{MAX_CAMERAS, POSE_FLOATS};
use refusal::Refusal;
use session_record::Held;
use shared_counts::{Cell, SUMMARY_ENTRIES, add_view};

// One cell more, which is not held yet, and one view more in the summary.
#[tactic(auto, using(std::proofs::lemmas::Grind::common_steps, crate::proofs::HeldViews::set_by_or, crate::proofs::HeldViews::view_away), unfolding(crate::specs::Pose::held_after_pose))]
fn hold(held: &mut Held, cell: Cell, shared: &mut [u8; SUMMARY_ENTRIES])
    requires empty { in_mask (get_or held.old.masks cell.camera 0) cell.view ≡ false }
    requires summed { shared.old ≡ summary_of held.old.masks }
    ensures held { held.new ≡ held_after_pose held.old cell.view cell.camera }
    ensures summed { shared.new ≡ summary_of (held_after_pose held.old cell.view cell.camera).masks }
{
    held.masks[usize::from(cell.camera)] |= 1 << cell.view;
    add_view(&held.masks, shared, cell);
}

// A cell's seven floats, and no others.
fn store_pose(pose: Pose, cell: Cell, buffer: &mut [f64])
    requires { length buffer.old ≡ buffer_length }
    ensures { buffer.new ≡ buffer_after_pose buffer.old cell.view cell.camera pose }
{
    let start = POSE_FLOATS * (usize::from(cell.view) * MAX_CAMERAS + usize::from(cell.camera));
    pose.write(&mut buffer[start..]);
}

// Kept: a buffer whose length is asked for, since C lends slices: an array's reference would be made of it for each call.
// 21, then 12, 23 and 7. An accepted Pose sets one bit, counts its view and writes seven floats.
#[tactic(auto, using(crate::proofs::PossibleRecords::record_parts), unfolding(crate::specs::Obeyed::obeyed, crate::specs::Pose::pose_command_refusal))]
pub fn obey_pose(
    held: &mut Held,
    stream: &[u8],
    at: usize,
    shared: &mut [u8; SUMMARY_ENTRIES],
    buffer: &mut [f64],
) -> Result<(), Refusal>
    requires { (at + pose_width ≤ length stream.now) × (length buffer.old ≡ buffer_length) × (possible (session_of held.old shared.old) ≡ true) }
    ensures { (f : List Float) (g : List ℕ) (next : ℕ) → turn_result (edit_turn held.new result next) shared.new buffer.new f g ≡ obeyed (state (session_of held.old shared.old) buffer.old f g) (edit (place_at stream.now at)) next }
{
    let named = NamedCell {
        view: stream[at + 1],
        camera: stream[at + 2],
    };
    let cell = named.check(held)?;
    if is_held(held, cell) {
        return Err(Refusal::HeldAlready(named.detail()));
    }
    let Some(pose) = read_finite_pose(stream, at + 3) else {
        return Err(Refusal::NotFinite(
            u32::from(cell.view) * u32::from(held.cameras) + u32::from(cell.camera),
        ));
    };
    store_pose(pose, cell, buffer);
    hold(held, cell, shared);
    Ok(())
}
