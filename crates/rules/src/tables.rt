// The constant tables of document 01: from refusal number to SBI error, and beside it what each call names and in which phases it is lawful.
ghost use Rattle.std.specs.Prelude.{◌≡◌, ◌<◌, eqb};
ghost use Rattle.rules.specs.Calls.{allows, entry_of};
ghost use Rattle.rules.specs.Step.{Refused, error_of, value_of};
ghost use Rattle.rules.specs.Answers.{answer_by, answer_of};
ghost use Rattle.rules.specs.Tables.{role_at, call_digit, row_of};

use super::Answer;
use super::numbers::Refusal;
use std::marker::Model;

const ERRORS: [i64; 16] = [
    0, // accepted
    -2, // 1: call number not in the table of calls
    -3, // 2: tvm above 15, or slot empty
    -3, // 3: wrong phase, ledger or table length
    -3, // 4: hart, argument or count out of range
    -5, // 5: address
    -5, // 6: kind
    -1, // 7: not done
    -7, // 8: a hart is still awaited
    -1, // 9: no slot, or a ninth region
    -5, // 10: region
    -5, // 11: already mapped
    -4, // 12: inside, or already made
    -1, // 13: versions at their end
    -5, // 14: large mapping
    -3, // 15: leave from outside
];

// By call number, eight hex digits. The first is 1 for a call of the table. The second has the phases in which it is lawful: 2 for I, 4 for R.
// Then one for each of a0 to a5: 1 tvm, 2 vCPU, 3 ordinary pages, 4 free pages, 5 directory, 6 count, 7 type, 8 guest address,
// 9 byte length, a harts, b pages, 0 where the argument is not named.
const CALLS: [u32; 34] = [
    0x0000_0000, // 0
    0x1036_0000, // 1 convert
    0x1046_0000, // 2 reclaim
    0x1000_0000, // 3 global fence
    0x1000_0000, // 4 local fence
    0x1054_0000, // 5 create
    0x1210_0000, // 6 finalize
    0x0000_0000,
    0x1610_0000, // 8 destroy
    0x1218_9000, // 9 region
    0x1614_6000, // 10 pool pages
    0x1213_4768, // 11 measured
    0x1414_7680, // 12 zero
    0x0000_0000,
    0x1212_4000, // 14 vCPU
    0x1412_0000, // 15 enter
    0x1410_0000, // 16 TVM fence
    0x1418_9000, // 17 invalidate
    0x1418_9000, // 18 validate
    0x1418_9000, // 19 remove
    0x0000_0000, // 20
    0x0000_0000,
    0x0000_0000,
    0x0000_0000,
    0x0000_0000,
    0x0000_0000,
    0x0000_0000,
    0x0000_0000,
    0x0000_0000,
    0x0000_0000,
    0x0000_0000,
    0x0000_0000,
    0x1000_0000, // 32 leave
    0x10ab_0000, // 33 open
];

pub fn error_at(number: u64) -> i64
    ensures { result ≡ error_of (Refused number) }
{
    if number < 16 {
        ERRORS[number as usize]
    } else {
        0
    }
}

pub fn error_of(answer: Result<u64, u64>) -> i64
    ensures { result ≡ error_of (answer_by answer) }
{
    match answer {
        Ok(_) => 0,
        Err(number) => error_at(number),
    }
}

pub fn value_of(answer: Result<u64, u64>) -> u64
    ensures { result ≡ value_of (answer_by answer) }
{
    match answer {
        Ok(value) => value,
        Err(number) => number,
    }
}

// The answer with its refusal's number, of which error and value are asked.
pub fn numbered(answer: Answer) -> Result<u64, u64>
    ensures { answer_by result ≡ answer_of answer }
{
    answer.map_err(Refusal::number)
}

// A call's row of the table of calls, and the call that it is of, which is the row's value in a contract.
#[derive(Clone, Copy)]
pub struct TableRow {
    call: u64,
    digits: u64,
}

impl Model for TableRow {
    ghost use Rattle.std.specs.Prelude.{◌≡◌, ℕ, refl};
    ghost use Rattle.rules.specs.Tables.{row_of};

    ghost Value = { ℕ };

    ghost view = { λ r. r.call };

    ghost invariant = { λ r. r.digits ≡ row_of r.call };

    ghost inverse = { λ n. record { call = n; digits = row_of n } };

    ghost inverse_ok = { λ r is. rw is refl };
}

#[tactic(auto, using(crate::proofs::CallTable::row_is, crate::proofs::CallTable::row_small, crate::proofs::CallTable::past_row), unfolding(crate::proofs::CallTable::rows))]
pub fn row(call: u64) -> u64
    ensures { result ≡ row_of call }
{
    if call < 34 {
        let row = CALLS[call as usize];
        row as u64
    } else {
        0
    }
}

impl TableRow {
    // The row is looked up once for a call and handed on: a look puts the whole table on the stack.
    pub fn of(call: u64) -> TableRow
        ensures { result ≡ call }
    {
        TableRow {
            call,
            digits: row(call),
        }
    }

    // Hex digit i of the row, from 0 on the left.
    #[tactic(auto, using(crate::proofs::CallTable::row_digit))]
    fn digit(self, i: u64) -> u64
        requires { i < 8 }
        ensures { result ≡ call_digit self i }
    {
        (self.digits >> (4 * (7 - i))) % 16
    }

    #[tactic(auto, using(crate::proofs::CallTable::known_digit))]
    pub fn is_unknown(self) -> bool
        ensures { result ≡ eqb (entry_of self).number 0 }
    {
        self.digit(0) == 0
    }

    #[tactic(auto, using(crate::proofs::CallTable::phase_digit, crate::proofs::CallTable::unlawful_past))]
    pub fn is_lawful(self, phase: u64) -> bool
        ensures { result ≡ allows (entry_of self).phases phase }
    {
        if phase < 4 {
            (self.digit(1) >> phase) % 2 == 1
        } else {
            false
        }
    }

    // What argument i of the call is: the number of its role, and no Option<Role>, since the words of a call's arguments are indexed by it.
    #[tactic(auto, using(crate::proofs::CallTable::role_digit, crate::proofs::CallTable::no_role))]
    pub fn role_at(self, i: u64) -> u64
        ensures { result ≡ role_at self i }
    {
        if i < 6 { self.digit(i + 2) } else { 0 }
    }
}
