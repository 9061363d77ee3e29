// One record of 52 bytes: the mark, the call, the hart and six arguments.
ghost use Rattle.std.specs.Prelude.{◌≡◌, ◌*◌, get_or};
ghost use Rattle.tape.specs.Tape.{step_at, after_of, args_at, word, call_of};

use rules::Call;

// What stands at an offset. The theorems of `specs/Promises.antt` speak of these four cases, so they stay one enum, and not an Option of a Result.
#[derive(Clone, Copy, Debug, PartialEq, Eq)]
pub enum Step {
    // Nothing left.
    End,
    // Fewer than 52 bytes left.
    Short,
    // A wrong mark.
    Mark,
    // A good record; `next` is past it.
    Record { call: u8, hart: u8, next: usize },
}

pub fn step_at(tape: &[u8], at: usize) -> Step
    ensures { result ≡ step_at tape.now at }
{
    let n = tape.len();
    if n <= at {
        return Step::End;
    }
    if n - at < 52 {
        return Step::Short;
    }
    if tape[at] != 0x43 {
        return Step::Mark;
    }
    if tape[at + 1] != 0x56 {
        return Step::Mark;
    }
    Step::Record {
        call: tape[at + 2],
        hart: tape[at + 3],
        next: at + 52,
    }
}

// The offset after a step: only a good record is passed.
pub fn after(step: Step, at: usize) -> usize
    ensures { result ≡ after_of step at }
{
    match step {
        Step::Record { next, .. } => next,
        Step::End | Step::Short | Step::Mark => at,
    }
}

// The 48 argument bytes of a good record, as that part of the tape; none where no good record stands.
pub fn args_at(tape: &[u8], at: usize) -> &[u8]
    ensures { result.now ≡ args_at tape.now at }
{
    let Step::Record { next, .. } = step_at(tape, at) else {
        return &[];
    };
    let start = at + 4;
    &tape[start..next]
}

// A byte that is not there adds nothing to a number, so an argument needs no refusal.
fn byte(args: &[u8], k: usize) -> u8
    ensures { result ≡ get_or args.now k 0 }
{
    args.get(k).copied().unwrap_or(0)
}

// Argument i of the 48 bytes.
pub fn arg(args: &[u8], i: u8) -> u64
    ensures { result ≡ word args.now (i * 8) }
{
    let k = usize::from(i) * 8;
    u64::from_le_bytes([
        byte(args, k),
        byte(args, k + 1),
        byte(args, k + 2),
        byte(args, k + 3),
        byte(args, k + 4),
        byte(args, k + 5),
        byte(args, k + 6),
        byte(args, k + 7),
    ])
}

// What a record asks, of its call, its hart and its argument bytes.
pub fn call_of(call: u8, hart: u8, args: &[u8]) -> Call
    ensures { result ≡ call_of call hart args.now }
{
    Call {
        number: u64::from(call),
        hart: u64::from(hart),
        a0: arg(args, 0),
        a1: arg(args, 1),
        a2: arg(args, 2),
        a3: arg(args, 3),
        a4: arg(args, 4),
        a5: arg(args, 5),
    }
}
