// The ledger for C: one function over `call`. `abi_c` exports it.

#![tactic(auto)]

ghost use Rattle.ledger.specs.Settled.{call_with};
ghost use Rattle.abi.specs.Replied.{Replied};

use rules::tables::{error_of, numbered, value_of};
use words::Words;

// An answer in document 01's numbers.
#[repr(C)]
#[derive(Clone, Copy)]
pub struct Reply {
    pub error: i64,
    pub value: u64,
}

pub fn roadbellow_call(
    ledger: &mut Words,
    table: &mut [u8],
    number: u64,
    hart: u64,
    a0: u64,
    a1: u64,
    a2: u64,
    a3: u64,
    a4: u64,
    a5: u64,
) -> Reply
    ensures { Replied ledger.old table.old (call_with number hart a0 a1 a2 a3 a4 a5) result ledger.new table.new }
{
    let answer = ledger::call(ledger, table, number, hart, a0, a1, a2, a3, a4, a5);
    let answer = numbered(answer);
    let error = error_of(answer);
    let value = value_of(answer);
    Reply { error, value }
}
