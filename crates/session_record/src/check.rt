// Whether accepted commands can leave a record: each part of it by its own check.
ghost use Rattle.std.specs.Prelude.{◌<◌, ◌≡◌};
ghost use Rattle.limits.specs.Limits.{max_cameras};
ghost use Rattle.session_record.specs.Session.{possible, possible_sizes, possible_masks, mask_fits};

use crate::{Held, Session};
use inputs::check_sizes;
use limits::{MAX_CAMERAS, MAX_VIEWS};
use shared_counts::is_summary;

// No sizes at all, or sizes that Size accepts.
#[tactic(auto, unfolding(inputs::specs::Inputs::checked_of))]
fn has_possible_sizes(held: Held) -> bool
    ensures { result ≡ possible_sizes held }
{
    (held.views == 0 && held.cameras == 0 && held.reference == 0)
        || check_sizes(
            usize::from(held.views),
            usize::from(held.cameras),
            usize::from(held.reference),
        )
        .is_ok()
}

// Whether no bit of the camera's mask is outside the sizes.
// Kept: a test for 64 views, since `checked_shr` takes a call 65 instructions and 11 ns more, of 3,300 and 330 ns.
#[tactic(auto, using(crate::proofs::PossibleRecords::below_power, crate::proofs::PossibleRecords::word_below_power))]
fn mask_fits(held: &Held, camera: usize) -> bool
    requires { camera < max_cameras }
    ensures { result ≡ mask_fits held.now camera }
{
    let mask = held.masks[camera];
    if usize::from(held.cameras) <= camera {
        return mask == 0;
    }
    MAX_VIEWS <= usize::from(held.views) || mask >> held.views == 0
}

fn has_possible_masks(held: &Held) -> bool
    ensures { result ≡ possible_masks held.now }
{
    (0..MAX_CAMERAS).all(|camera| mask_fits(held, camera))
}

// Each part of the record by its own check; the masks are looked at where the sizes are possible, and the summary where the masks are.
#[tactic(auto, unfolding(crate::specs::Session::possible, crate::specs::Session::possible_held))]
pub fn is_possible(session: &Session) -> bool
    ensures { result ≡ possible session.now }
{
    let held = Held::from(*session);
    has_possible_sizes(held)
        && has_possible_masks(&held)
        && is_summary(&session.masks, &session.shared)
}
