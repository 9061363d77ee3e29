// The door: what a call asks for is settled once, in words by role; and refusals 1 to 5, which look at no record and give the bounds that the others
// need. One function a number, each one equation with its condition in `rules`. The lent words and bytes stay two parameters, here and above: in
// `ledger` one is written while the other is read, and `Ready` speaks of both. A range's pages stay beside the request, since one that is refused 4 may
// name more of them than a word can count.

#![tactic(auto)]

mod asked;
pub mod early;
pub mod extent;
pub mod places;
pub mod request;
