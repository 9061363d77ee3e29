// The ledger: 426 words and a table of page records, both lent. All zero is a ledger that is not open. `call` is all that a host needs.

#![tactic(auto)]

mod kept;
mod table;

ghost use Rattle.std.specs.Prelude.{◌≡◌, length};
ghost use Rattle.rules.specs.Answers.{answer_of};
ghost use Rattle.rules.specs.Encoding.{view, pages_of, Numbers, Called};
ghost use Rattle.ledger.specs.Settled.{Settled, call_with};

use door::places::sized;
use door::request::Request;
use kept::on_ledger;
use refusals::number::refusal;
use rules::{Answer, Call};
use table::on_table;
use words::Words;
use words::cells::known;

// Whatever may refuse comes first and writes nothing; then the records, while the ledger is as the call found it; then the ledger.
fn settle(l: &mut Words, t: &mut [u8], r: &Request) -> Answer
    ensures { Settled (view l.old) (pages_of t.old) r.now (answer_of result) (view l.new) (pages_of t.new) }
{
    refusal(&*l, &*t, r)?;
    let pages = sized(r);
    on_table(&*l, &mut *t, r, pages);
    Ok(on_ledger(l, r, pages))
}

fn size(t: &[u8]) -> usize
    ensures { result ≡ length t.now }
{
    t.len()
}

// The lent bytes are numbers below 256; there are as many.
fn known_bytes(t: &[u8]) -> usize
    ensures { (result ≡ length t.now) × Numbers (length t.now) 256 t.now }
{
    size(t)
}

// A call on the lent ledger and table: every call number, hart and argument, whatever the words and the bytes hold.
pub fn call(
    ledger: &mut Words,
    table: &mut [u8],
    number: u64,
    hart: u64,
    a0: u64,
    a1: u64,
    a2: u64,
    a3: u64,
    a4: u64,
    a5: u64,
) -> Answer
    ensures { Called ledger.old table.old (call_with number hart a0 a1 a2 a3 a4 a5) (answer_of result) ledger.new table.new }
{
    let request = Request::new(Call {
        number,
        hart,
        a0,
        a1,
        a2,
        a3,
        a4,
        a5,
    });
    let answer = settle(&mut *ledger, &mut *table, &request);
    known(&*ledger);
    known_bytes(&*table);
    answer
}
