// The checks of a grid, in the papers' order: 7, a number that is not finite; 8, cameras without a chain; 9, an empty view.
ghost use Rattle.std.specs.Prelude.{ℕ, ◌<◌, ◌≡◌, ◌↔◌, get_or, T};
ghost use Rattle.placing.specs.Grid.{spots};
ghost use Rattle.chains.specs.Inner.Trees.{tree_of};
ghost use Rattle.lists.specs.Masks.{in_mask};
ghost use Rattle.placing.specs.Rig.{rig_grid};
ghost use Rattle.extrinsics.specs.Outcome.{lowest_not_finite, unreached_set, lowest_empty_view, is_not_finite};

use arithmetic::pose::{Finite, Pose};
use chains::Tree;
use placing::grid::Observations;

// The numbers of an empty cell are ignored.
#[tactic(auto, unfolding(crate::specs::Outcome::is_not_finite))]
fn is_not_finite(cell: Option<Pose>) -> bool
    ensures { result ≡ is_not_finite cell }
{
    cell.is_some_and(|pose| !pose.is_finite())
}

// The lowest cell that holds a number that is not finite, counted view after view.
#[tactic(auto, unfolding(lists::specs::Finding::lowest))]
pub(crate) fn find_not_finite(seen: &Observations<'_>) -> Option<u32>
    ensures { result ≡ lowest_not_finite (rig_grid seen.now.rig seen.now.floats.now) }
{
    let cameras = seen.rig.cameras;
    for view in 0..seen.rig.views {
        for camera in 0..cameras {
            if is_not_finite(seen.cell(view, camera)) {
                return Some((view * cameras + camera) as u32);
            }
        }
    }
    None
}

// The cameras that no chain ties to the reference, as a sum of powers of two.
#[tactic(auto, unfolding(lists::specs::Finding::power_sum))]
pub(crate) fn unreached_cameras(seen: &Observations<'_>, tree: &Tree) -> u32
    requires { tree.now ≡ tree_of (spots (rig_grid seen.now.rig seen.now.floats.now)) }
    ensures { result ≡ unreached_set (rig_grid seen.now.rig seen.now.floats.now) }
{
    let mut set = 0;
    for camera in 0..seen.rig.cameras {
        if tree.places[camera].is_none() {
            set += 1 << camera;
        }
    }
    set
}

// The views that any camera holds a pose in, as bits.
fn held_views(seen: &Observations<'_>) -> u64
    ensures { (v : ℕ) → T (in_mask result v) ↔ ((c : ℕ) × (c < seen.now.rig.cameras) × T (in_mask (get_or seen.now.rig.masks c 0) v)) }
{
    let mut held = 0;
    for mask in &seen.rig.masks[..seen.rig.cameras] {
        held |= mask;
    }
    held
}

// The lowest view that holds no pose.
#[tactic(auto, unfolding(lists::specs::Finding::lowest))]
pub(crate) fn find_empty_view(seen: &Observations<'_>) -> Option<u32>
    ensures { result ≡ lowest_empty_view (rig_grid seen.now.rig seen.now.floats.now) }
{
    let held = held_views(seen);
    for view in 0..seen.rig.views {
        if (held >> view) & 1 == 0 {
            return Some(view as u32);
        }
    }
    None
}
