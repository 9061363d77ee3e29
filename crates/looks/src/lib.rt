// Refusals 6, 7, 11 and 14, which look at the records that a call names: 6, 7 and 14 in one look, 11 in one pass over the table.

#![tactic(auto)]

pub mod claimed;
pub mod sight;
