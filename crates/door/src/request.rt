// What a call asks, as one value: the call, its row of the table of calls, and its arguments by role. Whoever holds one may ask of it what the paper
// asks of a call, and its value in a contract is the call.
ghost use Rattle.std.specs.Prelude.{◌≡◌, eqb};
ghost use Rattle.rules.specs.Calls.{allows, arg, entry_of, names, unnamed};
ghost use Rattle.door.specs.Asked.{named};
ghost use Rattle.door.specs.Operations.{call_number};

use super::asked::asked;
use rules::numbers::Operation;
use rules::tables::TableRow;
use rules::{Call, Role};
use std::marker::Model;

#[derive(Drop)]
pub struct Request {
    call: Call,
    row: TableRow,
    words: [u64; 12],
}

impl Model for Request {
    ghost use Rattle.std.specs.Prelude.{◌≡◌};
    ghost use Rattle.rules.specs.declared.Call.{Call};
    ghost use Rattle.door.specs.Asked.{Asked};

    ghost Value = { Call };

    ghost view = { λ r. r.call };

    ghost invariant = { λ r. Asked r.call r.words × (r.row ≡ r.call.number) };
}

impl Request {
    // The row is looked up once for a call: a look puts the whole table on the stack.
    pub fn new(call: Call) -> Request
        ensures { result ≡ call }
    {
        let row = TableRow::of(call.number);
        let words = asked(call, row);
        Request { call, row, words }
    }

    pub fn hart(&self) -> u64
        ensures { result ≡ self.now.hart }
    {
        self.call.hart
    }

    pub fn is(&self, operation: Operation) -> bool
        ensures { result ≡ eqb self.now.number (call_number operation) }
    {
        self.call.number == operation as u64
    }

    // The call names an argument of the role.
    pub fn names(&self, role: Role) -> bool
        ensures { result ≡ names role self.now }
    {
        sets::has(self.words[0], role as usize)
    }

    // Its value, 0 where the call names none.
    pub fn arg(&self, role: Role) -> u64
        ensures { result ≡ arg role self.now }
    {
        self.words[role as usize]
    }

    // Its value, where the call names one.
    pub fn named(&self, role: Role) -> Option<u64>
        ensures { result ≡ named role self.now }
    {
        self.names(role).then(|| self.arg(role))
    }

    // Some argument that is not named is not 0.
    pub fn has_spare(&self) -> bool
        ensures { result ≡ unnamed self.now }
    {
        sets::has(self.words[0], 0)
    }

    pub fn is_unknown(&self) -> bool
        ensures { result ≡ eqb (entry_of self.now.number).number 0 }
    {
        self.row.is_unknown()
    }

    pub fn is_lawful(&self, phase: u64) -> bool
        ensures { result ≡ allows (entry_of self.now.number).phases phase }
    {
        self.row.is_lawful(phase)
    }
}
