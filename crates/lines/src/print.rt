// What the program prints of a tape: a line for each record, in a lent buffer.
ghost use Rattle.std.specs.Prelude.{◌≡◌, ◌≤◌, length};
ghost use Rattle.rules.specs.Answers.{answer_of};
ghost use Rattle.rules.specs.Encoding.{Called, state_of};
ghost use Rattle.tape.specs.Tape.{call_of, reading};
ghost use Rattle.lines.specs.Text.{Written};
ghost use Rattle.lines.specs.Lines.{zeros, lines_from, Printed, handed as lines_handed};

use super::text::Text;
use rules::Answer;
use tape::reader::{Reader, Taken};
use tape::record::{arg, args_at, call_of};
use words::Words;

// What a record is answered.
fn answered(taken: Taken<'_>, ledger: &mut Words, table: &mut [u8]) -> Answer
    ensures { Called ledger.old table.old (call_of taken.entry.call taken.entry.hart taken.entry.args.now) (answer_of result) ledger.new table.new }
{
    let c = call_of(taken.call, taken.hart, taken.args);
    ledger::call(
        ledger, table, c.number, c.hart, c.a0, c.a1, c.a2, c.a3, c.a4, c.a5,
    )
}

// The lines of all records, and of a bad one: each call on what the last left. (A line is put together apart and then laid down, so that no more than
// a line stands beside the lent buffer.)
fn lines(tape: &[u8], ledger: &mut Words, table: &mut [u8], out: &mut [u8]) -> usize
    requires { (length tape.now ≤ 65536) × (41613 ≤ length out.old) }
    ensures { Written (lines_from 1 (state_of ledger.old table.old) (reading tape.now)) out.old 0 result out.new
        × (result ≤ length out.old) }
{
    let mut reader = Reader { tape, at: 0 };
    let mut number = 1;
    let mut end = 0;
    // Not a `for`, as in `tape::reading::run_of`: what ends the records is asked of the reader.
    while let Some(taken) = reader.next() {
        let answer = answered(taken, ledger, table);
        let mut text = Text::new();
        text.line(number, u64::from(taken.call), answer);
        end = text.lay(out, end);
        number += 1;
    }
    let mut last = Text::new();
    last.bad(number, reader.step());
    last.lay(out, end)
}

// "as many as the first record's a1 (0 if above 4,096)"
fn handed(tape: &[u8]) -> usize
    ensures { (result ≡ lines_handed (reading tape.now).calls) × (result ≤ 4096) }
{
    let records = arg(args_at(tape, 0), 1);
    if records <= 4096 { records as usize } else { 0 }
}

// 4,096 records of zero bytes.
fn blank_table() -> [u8; 32768]
    ensures { result ≡ zeros 32768 }
{
    [0; 32768]
}

// 1,260 records fit a tape, and with a bad one there are 1,261 lines, each of 33 bytes at most.
pub fn print(tape: &[u8], out: &mut [u8; 41613]) -> usize
    ensures { Printed tape.now out.old result out.new }
{
    if 65536 < tape.len() {
        let mut text = Text::new();
        text.word(b"long\n");
        return text.lay(out, 0);
    }
    let mut ledger = [0u32; words::SIZE];
    let mut table = blank_table();
    let end = 8 * handed(tape);
    lines(tape, &mut ledger, &mut table[..end], out)
}
