// A Pose command put into lent bytes.
ghost use Rattle.std.specs.Prelude.{◌+◌, ◌≤◌, ◌≡◌, true, length};
ghost use Rattle.arithmetic.specs.Pose.{finite_pose};
ghost use Rattle.putting.specs.Putting.{Puts};
ghost use Rattle.command.specs.Command.{place, edit, pose_width};
ghost use Rattle.command.specs.Writing.{pose_bytes_of, bytes_of};
ghost use Rattle.command.specs.Inner.Parts.{pose_bytes};

use crate::parse::Kind;
use arithmetic::pose::Pose;
use putting::Writer;

#[tactic(auto, using(putting::proofs::Putting::puts_length, crate::proofs::LowBytes::length_doubles))]
fn put_pose(writer: &mut Writer<'_>, pose: Pose)
    requires { (writer.old.used + pose_bytes ≤ length writer.old.bytes.now) × (finite_pose pose ≡ true) }
    ensures { Puts writer.old (pose_bytes_of pose) writer.new }
{
    for number in <[f64; 7]>::from(pose) {
        writer.put_bytes(&number.to_le_bytes());
    }
}

// The Pose command of this view, this camera and this pose, all of whose numbers are finite.
pub fn put_pose_command(writer: &mut Writer<'_>, view: u8, camera: u8, pose: Pose)
    requires { (writer.old.used + pose_width ≤ length writer.old.bytes.now) × (finite_pose pose ≡ true) }
    ensures { Puts writer.old (bytes_of (edit (place view camera pose))) writer.new }
{
    writer.put_bytes(&[u8::from(Kind::Pose), view, camera]);
    put_pose(writer, pose);
}
