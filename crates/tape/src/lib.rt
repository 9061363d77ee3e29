// The tape: what stands at an offset of a lent slice and the call that a record asks (`record`), how many records a whole tape has and how its
// reading ends (`reading`), and the reader that lends out the tape it walks and remembers its place (`reader`). Nothing here is refused: every
// slice and every offset has its answer.

#![tactic(auto)]

pub mod reader;
pub mod reading;
pub mod record;
