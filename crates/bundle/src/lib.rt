// A bundle: its frames, what they put in force, and the packets that are to be judged, one after the other from a cursor. What is made of
// them, a listing among others, is for the crates above.
#![tactic(auto)]

pub mod calls;
pub mod frames;
