// Plays a reel: reconstructs each picture from the references kept so far.
#![tactic(auto)]

pub mod play;
