// What the program prints, as bytes. `text` has numbers and words, `line` the lines of document 01, `print` all of them, in a lent buffer.

#![tactic(auto)]

mod line;
pub mod print;
mod text;
