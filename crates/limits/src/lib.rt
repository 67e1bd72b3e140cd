// The limits of document 01, and the layout of the two answers.
#![tactic(auto)]

// As many views as a rig may have: one for each bit of a mask.
pub const MAX_VIEWS: usize = 64;

// As many cameras as a rig may have.
pub const MAX_CAMERAS: usize = 16;

// "Cameras are linked if they share a view": one shared view links two cameras.
pub const ONE_VIEW: u32 = 1;

// How many floats a pose takes.
pub const POSE_FLOATS: usize = 7;

// The bytes of a camera in the second answer: its parent, and at LINKS_PLACE its number of links.
pub const CHAIN_BYTES: usize = 2;

pub const LINKS_PLACE: usize = 1;
