// The lines of document 01.
ghost use Rattle.std.specs.Prelude.{◌≡◌, ◌+◌, ◌^◌, ◌<◌, ◌≤◌, length, ◌++◌};
ghost use Rattle.rules.specs.Answers.{answer_of};
ghost use Rattle.lines.specs.declared.text.TheConstants.{ROOM};
ghost use Rattle.lines.specs.Text.{decimal as text_decimal, blank};
ghost use Rattle.lines.specs.Lines.{told as lines_told, line as lines_line, noted as lines_noted, bad as lines_bad};

use super::text::Text;
use rules::Answer;
use rules::tables::{error_of, numbered, value_of};
use tape::record::Step;

impl Text {
    // A number and a blank.
    fn field(&mut self, n: u64)
        requires { length self.old + length (text_decimal n ++ blank) ≤ ROOM }
        ensures { self.new ≡ self.old ++ (text_decimal n ++ blank) }
    {
        self.decimal(n);
        self.put(b' ');
    }

    // The error and the value, to the line's end.
    fn told(&mut self, error: i64, value: u64)
        requires { length self.old + length (lines_told error value) ≤ ROOM }
        ensures { self.new ≡ self.old ++ lines_told error value }
    {
        self.signed(error);
        self.put(b' ');
        self.decimal(value);
        self.put(b'\n');
    }

    // "number from 1, call, error, value, single blanks": with no more than 4 and 3 digits before them, 33 bytes at most.
    pub fn line(&mut self, number: u64, call: u64, answer: Answer)
        requires { (length self.old + 33 ≤ ROOM) × (number < 10 ^ 4) × (call < 10 ^ 3) }
        ensures { (self.new ≡ self.old ++ lines_line number call (answer_of answer)) × (length self.new ≤ length self.old + 33) }
    {
        let answer = numbered(answer);
        let error = error_of(answer);
        let value = value_of(answer);
        self.field(number);
        self.field(call);
        self.told(error, value);
    }

    // A number and a word, as a line.
    fn noted(&mut self, number: u64, word: &[u8])
        requires { length self.old + length (lines_noted number word.now) ≤ ROOM }
        ensures { self.new ≡ self.old ++ lines_noted number word.now }
    {
        self.field(number);
        self.word(word);
        self.put(b'\n');
    }

    // "A bad record prints its number and `short` or `mark`"; where the tape ends there is none.
    pub fn bad(&mut self, number: u64, step: Step)
        requires { length self.old + length (lines_bad number step) ≤ ROOM }
        ensures { self.new ≡ self.old ++ lines_bad number step }
    {
        match step {
            Step::Short => self.noted(number, b"short"),
            Step::Mark => self.noted(number, b"mark"),
            Step::End | Step::Record { .. } => {}
        }
    }
}
