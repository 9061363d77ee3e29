// Refusals 8, 9, 10, 12, 13 and 15, which look at the ledger's own parts: fences, slots, regions and who is inside what.

#![tactic(auto)]

pub mod fencing;
pub mod presence;
pub mod regions;
pub mod room;
