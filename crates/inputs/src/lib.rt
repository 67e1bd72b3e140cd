// The checks of the direct call's inputs, in the papers' order: 1 to 3, the sizes; 4, the counts; 5, the lengths; 6, the marks. And the
// masks that its marks make.
#![tactic(auto)]

ghost use Rattle.std.specs.Prelude.{ℕ, ◌+◌, ◌*◌, ◌≤◌, ◌<◌, ◌≡◌, length, get_or};
ghost use Rattle.limits.specs.Limits.{max_views, max_cameras};
ghost use Rattle.inputs.specs.Inputs.{size_refusal, length_refusal, count_refusal, mark_refusal, input_refusal, checked_of};
ghost use Rattle.inputs.specs.Inner.Marks.{mask_of};

use limits::{CHAIN_BYTES, MAX_CAMERAS, MAX_VIEWS, POSE_FLOATS};
use refusal::Refusal;

// 1, 2 and 3: the views, then the cameras, then the reference.
#[tactic(auto, unfolding(crate::specs::Inputs::size_refusal, crate::specs::Inputs::checked_of))]
pub fn check_sizes(views: usize, cameras: usize, reference: usize) -> Result<(), Refusal>
    ensures { result ≡ checked_of (size_refusal views cameras reference) }
{
    if views == 0 {
        return Err(Refusal::InsufficientData);
    }
    if MAX_VIEWS < views {
        return Err(Refusal::TooMany);
    }
    if cameras == 0 {
        return Err(Refusal::InsufficientData);
    }
    if MAX_CAMERAS < cameras {
        return Err(Refusal::TooMany);
    }
    if cameras <= reference {
        return Err(Refusal::InvalidReference);
    }
    Ok(())
}

// 4: the lowest view whose count is not view 0's.
fn check_counts(counts: &[u32]) -> Result<(), Refusal>
    requires { (0 < length counts.now) × (length counts.now ≤ max_views) }
    ensures { result ≡ checked_of (count_refusal counts.now) }
{
    match counts.iter().position(|&count| count != counts[0]) {
        Some(view) => Err(Refusal::CountDiffers(view as u32)),
        None => Ok(()),
    }
}

// 5: a mark for each cell, seven floats for each cell, and room for the answers.
#[tactic(auto, unfolding(crate::specs::Inputs::length_refusal, crate::specs::Inputs::checked_of))]
fn check_lengths(
    views: usize,
    cameras: usize,
    marks: usize,
    floats: usize,
    first: usize,
    second: usize,
) -> Result<(), Refusal>
    requires { (views ≤ max_views) × (cameras ≤ max_cameras) }
    ensures { result ≡ checked_of (length_refusal views cameras marks floats first second) }
{
    let cells = views * cameras;
    if marks != cells
        || floats != POSE_FLOATS * cells
        || first < POSE_FLOATS * (cameras + views)
        || second < CHAIN_BYTES * cameras
    {
        return Err(Refusal::WrongLength);
    }
    Ok(())
}

// 6: the lowest cell whose mark is neither 0 nor 1.
fn check_marks(marks: &[u8]) -> Result<(), Refusal>
    requires { length marks.now ≤ max_views * max_cameras }
    ensures { result ≡ checked_of (mark_refusal (length marks.now) marks.now) }
{
    match marks.iter().position(|&mark| 1 < mark) {
        Some(cell) => Err(Refusal::BadMark(cell as u32)),
        None => Ok(()),
    }
}

// The marks of a grid within the limits: one for each cell, view after view.
#[derive(Clone, Copy)]
pub struct Marks<'a> {
    pub marks: &'a [u8],
    pub views: usize,
    pub cameras: usize,
    ghost whole: { (views ≤ max_views) × (cameras ≤ max_cameras) × (length marks.now ≡ views * cameras) },
}

impl Marks<'_> {
    // The views in which a camera is marked, as bits.
    #[tactic(auto, unfolding(crate::specs::Inner::Marks::mask_of))]
    fn mask(&self, camera: usize) -> u64
        requires { camera < self.now.cameras }
        ensures { result ≡ mask_of self.now.marks.now self.now.cameras self.now.views camera }
    {
        let mut mask = 0u64;
        for view in 0..self.views {
            if self.marks[view * self.cameras + camera] != 0 {
                mask += 1 << view;
            }
        }
        mask
    }

    // The masks of all cameras.
    pub fn masks(&self) -> [u64; MAX_CAMERAS]
        ensures { (c : ℕ) → c < self.now.cameras → get_or result c 0 ≡ mask_of self.now.marks.now self.now.cameras self.now.views c }
    {
        let mut masks = [0u64; MAX_CAMERAS];
        for camera in 0..self.cameras {
            masks[camera] = self.mask(camera);
        }
        masks
    }
}

// The cameras of view 0; none where there are no views.
pub fn camera_count(counts: &[u32]) -> usize
    ensures { result ≡ get_or counts.now 0 0 }
{
    counts.first().map_or(0, |&count| count as usize)
}

// The first of the checks that refuses, for so many floats, this reference and answers of these lengths.
#[tactic(auto, unfolding(crate::specs::Inputs::input_refusal, crate::specs::Inputs::checked_of))]
pub fn check_input(
    counts: &[u32],
    marks: &[u8],
    floats: usize,
    reference: usize,
    first: usize,
    second: usize,
) -> Result<(), Refusal>
    ensures { result ≡ checked_of (input_refusal counts.now marks.now floats reference first second) }
{
    let views = counts.len();
    let cameras = camera_count(counts);
    check_sizes(views, cameras, reference)?;
    check_counts(counts)?;
    check_lengths(views, cameras, marks.len(), floats, first, second)?;
    check_marks(marks)
}
