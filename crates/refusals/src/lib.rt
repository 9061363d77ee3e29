// The refusals, 1 to 15, by `&` only: `refusal` gives the lowest that holds, and is `Ok` where none does.

#![tactic(auto)]

pub mod number;
