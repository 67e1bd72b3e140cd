// The commands of a stream as bytes: what stands at an offset, the pose of a Pose command, and that command written.
// The functions ask for as many bytes as they read or write: the crates above, which call them, have looked.
// Kept: a stream and an offset side by side, here and above: what is answered and refused counts from the stream's front, which a part of it has lost.
#![tactic(auto)]

pub mod bytes;
pub mod parse;
pub mod write;
