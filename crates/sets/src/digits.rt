// A word whose binary digits are a set. The sets' functions are written over `Digits` and proved once: they read the digits in a u64 and put them back.
ghost use Rattle.std.specs.Prelude.{ℕ, ◌≡◌, ◌<◌, ◌≤◌, ◌^◌};
ghost use Rattle.std.proofs.Common.{rules};

pub trait Digits: Copy {
    // How many digits it has.
    ghost width: { ℕ };

    // The number whose digits they are.
    ghost number: { Self → ℕ };

    fn word(self) -> u64
        ensures is { result ≡ number self }
        ensures fits { result < 2 ^ width };

    fn from_word(word: u64) -> Self
        requires { word < 2 ^ width }
        ensures { number result ≡ word };

    // What each `impl` must prove.
    ghost in_word: { width ≤ 64 };
}

impl Digits for u8 {
    ghost width = { 8 };

    ghost number = { λ byte. byte };

    ghost in_word = { Prim.search rules };

    fn word(self) -> u64 {
        u64::from(self)
    }

    fn from_word(word: u64) -> u8 {
        word as u8
    }
}

impl Digits for u64 {
    ghost width = { 64 };

    ghost number = { λ word. word };

    ghost in_word = { Prim.search rules };

    fn word(self) -> u64 {
        self
    }

    fn from_word(word: u64) -> u64 {
        word
    }
}
