// The lengths of what is lent, of lists of poses as floats, seven each, and of text: what is refused of them.
ghost use Rattle.std.specs.Prelude.{◌≡◌};
ghost use Rattle.inputs.specs.Inputs.{checked_of};
ghost use Rattle.stream_text.specs.StreamText.{text_refusal};
ghost use Rattle.test_probe.specs.Poses.{poses_refusal};

use limits::POSE_FLOATS;
use listing::LISTING_BYTES;
use refusal::Refusal;
use session::wrong_length;

// 5: floats that are not seven for each pose, or an answer with less room than it needs.
#[tactic(auto, unfolding(inputs::specs::Inputs::checked_of, refusal::specs::Table::refuse_if, crate::specs::Poses::poses_refusal))]
pub fn check_poses(floats: usize, room: usize, needed: usize) -> Result<(), Refusal>
    ensures { result ≡ checked_of (poses_refusal floats room needed) }
{
    if (floats % POSE_FLOATS != 0) | (room < needed) {
        return Err(Refusal::WrongLength);
    }
    Ok(())
}

// 5: text that may not hold every reply; 13 comes before it.
#[tactic(auto, unfolding(inputs::specs::Inputs::checked_of, stream_text::specs::StreamText::text_refusal))]
pub fn check_text(stream: &[u8], room: usize) -> Result<(), Refusal>
    ensures { result ≡ checked_of (text_refusal stream.now room) }
{
    if room < LISTING_BYTES {
        return Err(wrong_length(stream.len()));
    }
    Ok(())
}
