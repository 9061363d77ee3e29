// Page records in lent bytes: one record, a range of them, the whole table, and those that a guest range means. Every contract here speaks of
// the typed table that the bytes show; nothing above knows a byte.

#![tactic(auto)]

pub mod guest;
pub mod range;
pub mod record;
pub mod table;
