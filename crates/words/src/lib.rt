// The ledger's words, lent: 426 of 32 bits at constant offsets, all zero a ledger that is not open. Nothing else knows an offset: words are read
// into small typed values here and written from them.

#![tactic(auto)]

pub mod below;
pub mod cells;
pub mod parts;
pub mod sizes;

// How many words there are: a new run of the layout is one more sum here, and `Encoding` says which.
pub const SIZE: usize = 426;

pub type Words = [u32; SIZE];
