// A set of small numbers in the binary digits of a word: of numbers below 8 in a byte, of numbers below 64 in a u64.

#![tactic(auto)]

ghost use Rattle.std.specs.Prelude.{◌≡◌, ◌<◌, ◌≤◌};
ghost use Rattle.sets.specs.Look.{count};
ghost use Rattle.sets.specs.Set.{member, with, without, full};

pub use digits::Digits;

// The number k is in the set. (That k is a digit's is each function's own bound of its one argument; a type for it would only be unwrapped here.)
#[tactic(auto, unfolding(crate::specs::Set::member))]
pub fn has<S: Digits>(set: S, k: usize) -> bool
    requires { k < S.width }
    ensures { result ≡ member k (S.number set) }
{
    (set.word() >> k) % 2 == 1
}

pub fn insert<S: Digits>(set: S, k: usize) -> S
    requires { k < S.width }
    ensures { S.number result ≡ with (S.number set) k }
{
    S::from_word(set.word() | (1 << k))
}

pub fn remove<S: Digits>(set: S, k: usize) -> S
    requires { k < S.width }
    ensures { S.number result ≡ without (S.number set) k }
{
    S::from_word(set.word() & !(1 << k))
}

// How many members the set has.
pub fn size(s: u8) -> u32
    ensures { result ≡ count (λ k. member k s) 8 }
{
    u8::count_ones(s)
}

// The numbers below n.
pub fn first(n: u8) -> u8
    requires { n ≤ 8 }
    ensures { result ≡ full n }
{
    ((1u16 << n) - 1) as u8
}

mod digits;
pub mod pages;
