// "A tape reader lends out the tape it walks and remembers its place": a struct that holds the slice and the offset, thin over `record`.
ghost use Rattle.std.specs.Prelude.{◌≡◌, ◌-◌, length};
ghost use Rattle.std.specs.Iterator.{at_most};
ghost use Rattle.tape.specs.Tape.{step_of};
ghost use Rattle.tape.specs.Reader.{Takes};

use super::record::{Step, after, args_at, step_at};

#[derive(Clone, Copy, Debug)]
pub struct Reader<'a> {
    pub tape: &'a [u8],
    pub at: usize,
}

// A good record: "it hands back the 48 argument bytes as that part of the tape", lent on for as long as the tape is.
#[derive(Clone, Copy, Debug)]
pub struct Taken<'a> {
    pub call: u8,
    pub hart: u8,
    pub args: &'a [u8],
}

impl<'a> Reader<'a> {
    // What stands at its place: where no record is left to take, why.
    pub fn step(&self) -> Step
        ensures { result ≡ step_of self.now }
    {
        step_at(self.tape, self.at)
    }
}

// The good records, in order: one that doesn't read ends them, and the reader stays there.
impl<'a> Iterator for Reader<'a> {
    type Item = Taken<'a>;

    ghost next_gives = { Takes };

    ghost remaining = { λ r. at_most (length r.tape.now - r.at) };

    fn next(&mut self) -> Option<Taken<'a>> {
        let step = self.step();
        let args = args_at(self.tape, self.at);
        self.at = after(step, self.at);
        let Step::Record { call, hart, .. } = step else {
            return None;
        };
        Some(Taken { call, hart, args })
    }
}
