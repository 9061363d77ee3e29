// What an accepted call writes. Every function here is reached only where nothing refuses the call; each speaks of a slot, a hart or a
// range, not of a call.

#![tactic(auto)]

pub mod entering;
pub mod fencing;
pub mod pages;
pub mod slots;
