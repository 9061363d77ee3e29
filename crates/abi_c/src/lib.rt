// The static library for C: `abi`'s function under its C name. include/roadbellow.h declares it.

#![tactic(auto)]

ghost use Rattle.ledger.specs.Settled.{call_with};
ghost use Rattle.abi.specs.Replied.{Replied};

use abi::Reply;
use words::Words;

#[unsafe(no_mangle)]
pub extern "C" fn roadbellow_call(
    ledger: &mut Words,
    table: &mut [u8],
    number: u64,
    hart: u64,
    a0: u64,
    a1: u64,
    a2: u64,
    a3: u64,
    a4: u64,
    a5: u64,
) -> Reply
    ensures { Replied ledger.old table.old (call_with number hart a0 a1 a2 a3 a4 a5) result ledger.new table.new }
{
    abi::roadbellow_call(ledger, table, number, hart, a0, a1, a2, a3, a4, a5)
}
