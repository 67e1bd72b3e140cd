// The arithmetic of poses.
// A definition of specs/ says what comes of every input. `Pose::read` and `Pose::write` alone ask for something, the seven places
// that they read or write: the crates above, which call them, have it.
#![tactic(auto)]

pub mod pose;
