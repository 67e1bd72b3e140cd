// The summary of shared counts: for each two cameras, how many views hold poses of both; for a camera with itself, how many hold one of it. It is kept
// up with work for one camera's row and column, and checked against the masks. Rests on the views that two masks share.
#![tactic(auto)]

ghost use Rattle.std.specs.Prelude.{◌-◌, ◌^◌, ◌<◌, ◌≡◌, true, get_or, set};
ghost use Rattle.limits.specs.Limits.{max_views, max_cameras};
ghost use Rattle.lists.specs.Masks.{in_mask};
ghost use Rattle.chains.specs.Masks.{shared_by};
ghost use Rattle.shared_counts.specs.Summary.{summary_of, is_summary};
ghost use Rattle.shared_counts.specs.Inner.Counts.{true_up_to, recounted, Counted};

use limits::MAX_CAMERAS;

// Entries stand row after row, one row for each camera.
// Kept: flat, as the words are that C hands in: nested, both conversions would count rows and columns.
pub const SUMMARY_ENTRIES: usize = MAX_CAMERAS * MAX_CAMERAS;

// A view of a camera, both within the limits.
#[derive(Clone, Copy)]
pub struct Cell {
    pub view: u8,
    pub camera: u8,
    ghost inside: { (view < max_views) × (camera < max_cameras) },
}

// Whether no entry is false: each two cameras are counted once, for the entries of both orders.
pub fn is_summary(masks: &[u64; MAX_CAMERAS], shared: &[u8; SUMMARY_ENTRIES]) -> bool
    ensures { result ≡ is_summary masks.now shared.now }
{
    (0..MAX_CAMERAS).all(|camera| counts_up_to(masks, shared, camera))
}

// The camera's entries with those of lower or its own index, in its row and in its column.
fn counts_up_to(masks: &[u64; MAX_CAMERAS], shared: &[u8; SUMMARY_ENTRIES], camera: usize) -> bool
    requires { camera < max_cameras }
    ensures { result ≡ true_up_to masks.now shared.now camera }
{
    let mut wrong = 0u8;
    for other in 0..=camera {
        let count = shared_count(masks, camera, other);
        wrong |= count ^ shared[camera * MAX_CAMERAS + other];
        wrong |= count ^ shared[other * MAX_CAMERAS + camera];
    }
    wrong == 0
}

// How many views two cameras share; one without poses is not counted at all.
// Kept: all masks lent, so that the other one is read where it is counted alone. Then the test is made before the loop over the others: with both masks handed
// in, a Pose takes 380 instructions more, of 4,400, on average while 64 views × 16 cameras fill up.
fn shared_count(masks: &[u64; MAX_CAMERAS], camera: usize, other: usize) -> u8
    requires { (camera < max_cameras) × (other < max_cameras) }
    ensures { result ≡ shared_by masks.now camera other }
{
    let mask = masks[camera];
    if mask == 0 {
        0
    } else {
        chains::shared(mask, masks[other]) as u8
    }
}

// One view more for a camera: the masks hold it already, and the entries are those without it.
// Kept: masks and entries side by side, since one is read and the other changed; a struct of both would be made anew for each call.
pub fn add_view(masks: &[u64; MAX_CAMERAS], shared: &mut [u8; SUMMARY_ENTRIES], cell: Cell)
    requires view_held { in_mask (get_or masks.now cell.camera 0) cell.view ≡ true }
    requires summed_without_view { shared.old ≡ summary_of (set masks.now cell.camera (get_or masks.now cell.camera 0 - 2 ^ cell.view)) }
    ensures { shared.new ≡ summary_of masks.now }
{
    count_view(masks, shared, cell, 1);
}

// One view fewer for a camera: the masks, and the entries, hold it still.
// Kept: a function beside `add_view`, since each asks for what the other promises.
pub fn remove_view(masks: &[u64; MAX_CAMERAS], shared: &mut [u8; SUMMARY_ENTRIES], cell: Cell)
    requires view_held { in_mask (get_or masks.now cell.camera 0) cell.view ≡ true }
    requires summed_with_view { shared.old ≡ summary_of masks.now }
    ensures { shared.new ≡ summary_of (set masks.now cell.camera (get_or masks.now cell.camera 0 - 2 ^ cell.view)) }
{
    count_view(masks, shared, cell, 255);
}

// The camera's row and column, changed by `by` for every camera whose mask holds the view. Both orders of two cameras have the same count.
fn count_view(masks: &[u64; MAX_CAMERAS], shared: &mut [u8; SUMMARY_ENTRIES], cell: Cell, by: u8)
    ensures { Counted masks.now shared.old cell.camera cell.view by max_cameras shared.new }
{
    let camera = usize::from(cell.camera);
    for other in 0..MAX_CAMERAS {
        let count = recount(
            shared[camera * MAX_CAMERAS + other],
            masks[other],
            cell.view,
            by,
        );
        shared[camera * MAX_CAMERAS + other] = count;
        shared[other * MAX_CAMERAS + camera] = count;
    }
}

// A count changed by `by` where the mask holds the view; 255 wraps around to one less.
#[tactic(auto, using(std::proofs::lemmas::Nat::Bits::shr_and_one))]
fn recount(count: u8, mask: u64, view: u8, by: u8) -> u8
    requires { view < max_views }
    ensures { result ≡ recounted count mask view by }
{
    if (mask >> view) & 1 == 0 {
        count
    } else {
        count.wrapping_add(by)
    }
}
