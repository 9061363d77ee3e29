// A whole tape, read from its start.
ghost use Rattle.std.specs.Prelude.{◌≡◌};
ghost use Rattle.tape.specs.Tape.{run_of};

use super::reader::Reader;
use super::record::Step;

#[derive(Clone, Copy, Debug, PartialEq, Eq)]
pub struct Run {
    pub records: usize,
    pub end: Step,
}

// How many good records come first, and what ends the run: "a record that doesn't read ends the run".
pub fn run_of(tape: &[u8]) -> Run
    ensures { result ≡ run_of tape.now }
{
    let mut reader = Reader { tape, at: 0 };
    let mut records = 0;
    // A `for` over `&mut reader`, or `by_ref` and `count`, would leave it unknown where the reader stands after it.
    while let Some(_) = reader.next() {
        records += 1;
    }
    let end = reader.step();
    Run { records, end }
}
