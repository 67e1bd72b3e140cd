// The lines of a listing, put behind what a writer has written.
// Kept: put by hand, and no `write!`, which promises its bytes only where it answers Ok, and nowhere that it does: a line is promised wherever it fits.
ghost use Rattle.std.specs.Prelude.{◌+◌, ◌*◌, ◌≤◌, [], ◌∷◌, length};
ghost use Rattle.limits.specs.Limits.{max_views, max_cameras, pose_floats, first_needs, second_needs};
ghost use Rattle.lists.specs.Lists.{gather};
ghost use Rattle.listing.specs.Listing.{refusal_line, ok_line, pose_fields, camera_line, view_line, camera_line_at, view_line_at, solved_text, listing_bytes};
ghost use Rattle.listing.specs.Widths.{ok_bytes, camera_bytes, view_bytes};
ghost use Rattle.putting.specs.Putting.{Puts};
ghost use Rattle.listing.specs.Inner.Refusals.{refusal_bytes};

use crate::text::{NEWLINE, put_number, put_pose};
use arithmetic::pose::Pose;
use limits::{CHAIN_BYTES, LINKS_PLACE, POSE_FLOATS};
use placing::answer::GivenAnswers;
use putting::Writer;
use refusal::Refusal;
use session_record::Held;

pub(crate) fn put_refusal(writer: &mut Writer<'_>, refusal: Refusal)
    requires { writer.old.used + refusal_bytes ≤ length writer.old.bytes.now }
    ensures { Puts writer.old (refusal_line refusal) writer.new }
{
    writer.put_bytes(b"no");
    put_number(writer, refusal.number());
    put_number(writer, refusal.detail());
    writer.put_byte(NEWLINE);
}

fn put_ok(writer: &mut Writer<'_>, cameras: u8, views: u8)
    requires { writer.old.used + ok_bytes ≤ length writer.old.bytes.now }
    ensures put { Puts writer.old (ok_line cameras views) writer.new }
    ensures upper_bound { writer.new.used ≤ writer.old.used + ok_bytes }
{
    writer.put_bytes(b"ok");
    put_number(writer, u32::from(cameras));
    put_number(writer, u32::from(views));
    writer.put_byte(NEWLINE);
}

fn put_camera(writer: &mut Writer<'_>, index: u8, parent: u8, links: u8, pose: Pose)
    requires { writer.old.used + camera_bytes pose_floats ≤ length writer.old.bytes.now }
    ensures put { Puts writer.old (camera_line pose_fields (index ∷ parent ∷ links ∷ []) pose) writer.new }
    ensures upper_bound { writer.new.used ≤ writer.old.used + camera_bytes pose_floats }
{
    writer.put_byte(b'c');
    put_number(writer, u32::from(index));
    put_number(writer, u32::from(parent));
    put_number(writer, u32::from(links));
    put_pose(writer, pose);
}

fn put_view(writer: &mut Writer<'_>, index: u8, pose: Pose)
    requires { writer.old.used + view_bytes pose_floats ≤ length writer.old.bytes.now }
    ensures put { Puts writer.old (view_line pose_fields (index ∷ []) pose) writer.new }
    ensures upper_bound { writer.new.used ≤ writer.old.used + view_bytes pose_floats }
{
    writer.put_byte(b'v');
    put_number(writer, u32::from(index));
    put_pose(writer, pose);
}

fn put_cameras(writer: &mut Writer<'_>, cameras: u8, answers: &GivenAnswers<'_>)
    requires has_room { writer.old.used + camera_bytes pose_floats * cameras ≤ length writer.old.bytes.now }
    requires answers_hold { (pose_floats * cameras ≤ length answers.now.transforms.now) × (second_needs cameras ≤ length answers.now.chains.now) }
    ensures put { Puts writer.old (gather cameras (camera_line_at pose_fields answers.now.transforms.now answers.now.chains.now)) writer.new }
    ensures upper_bound { writer.new.used ≤ writer.old.used + camera_bytes pose_floats * cameras }
{
    for camera in 0..cameras {
        let c = usize::from(camera);
        let pose = Pose::read(answers.transforms, POSE_FLOATS * c);
        let parent = answers.chains[CHAIN_BYTES * c];
        let links = answers.chains[CHAIN_BYTES * c + LINKS_PLACE];
        put_camera(writer, camera, parent, links, pose);
    }
}

fn put_views(writer: &mut Writer<'_>, cameras: u8, views: u8, answers: &GivenAnswers<'_>)
    requires has_room { writer.old.used + view_bytes pose_floats * views ≤ length writer.old.bytes.now }
    requires answer_holds { first_needs cameras views ≤ length answers.now.transforms.now }
    ensures { Puts writer.old (gather views (view_line_at pose_fields answers.now.transforms.now cameras)) writer.new }
{
    for view in 0..views {
        let at = POSE_FLOATS * (usize::from(cameras) + usize::from(view));
        put_view(writer, view, Pose::read(answers.transforms, at));
    }
}

pub(crate) fn put_solved(writer: &mut Writer<'_>, held: Held, answers: &GivenAnswers<'_>)
    requires within_limits { (held.cameras ≤ max_cameras) × (held.views ≤ max_views) × (writer.old.used + listing_bytes ≤ length writer.old.bytes.now) }
    requires answers_hold { (first_needs held.cameras held.views ≤ length answers.now.transforms.now) × (second_needs held.cameras ≤ length answers.now.chains.now) }
    ensures { Puts writer.old (solved_text pose_fields held answers.now.transforms.now answers.now.chains.now) writer.new }
{
    let cameras = held.cameras;
    let views = held.views;
    put_ok(writer, cameras, views);
    put_cameras(writer, cameras, answers);
    put_views(writer, cameras, views, answers);
}
