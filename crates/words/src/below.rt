// A number below a bound, so that no contract says the bound again.
ghost use Rattle.std.specs.Prelude.{◌≡◌, ◌<◌, ℕ};

use std::marker::Model;

#[derive(Clone, Copy)]
pub struct Below<const BOUND: u64> {
    number: u64,
}

impl<const BOUND: u64> Model for Below<BOUND> {
    ghost Value = { ℕ };

    ghost view = { λ b. b.number };

    ghost invariant = { λ b. b.number < BOUND };

    ghost inverse = { λ n. record { number = n } };
}

// Which slot, which hart and which of a TVM's vCPUs. The contracts tell the last two apart.
pub type Slot = Below<16>;

pub type Hart = Below<8>;

pub type Vcpu = Below<8>;

impl<const BOUND: u64> Below<BOUND> {
    pub fn new(number: u64) -> Below<BOUND>
        requires { number < BOUND }
        ensures { result ≡ number }
    {
        Below { number }
    }

    pub fn number(self) -> u64
        ensures is { result ≡ self.entry }
        ensures fits { result < BOUND }
    {
        self.number
    }
}
