// A set of numbers below 4,096 in 512 bytes: 64 words of 64 digits.
ghost use Rattle.std.specs.Prelude.{◌≡◌, ◌<◌, ℕ, List, not, replicate};
ghost use Rattle.sets.specs.Pages.{member_in, with_in, without_in};

use std::marker::Model;

#[derive(Clone, Copy)]
pub struct PageSet {
    words: [u64; 64],
}

impl Model for PageSet {
    ghost Value = { List ℕ };

    ghost view = { λ set. set.words };

    ghost inverse = { λ words. record { words = words } };
}

// (`d` is each method's one argument, so its bound stands at each.)
impl PageSet {
    pub fn new() -> PageSet
        ensures { result ≡ replicate 64 0 }
    {
        PageSet { words: [0; 64] }
    }

    // The set that any 64 words are.
    pub fn of(words: [u64; 64]) -> PageSet
        ensures { result ≡ words }
    {
        PageSet { words }
    }

    // Its 64 words.
    pub fn words(&self) -> [u64; 64]
        ensures { result ≡ self.now }
    {
        let PageSet { words } = *self;
        words
    }

    #[tactic(auto, unfolding(crate::specs::Pages::member_in))]
    pub fn has(&self, d: usize) -> bool
        requires { d < 4096 }
        ensures { result ≡ member_in 64 d self.now }
    {
        super::has(self.words[d / 64], d % 64)
    }

    // Puts the number in, and says whether it is new.
    #[tactic(auto, unfolding(crate::specs::Pages::with_in))]
    pub fn insert(&mut self, d: usize) -> bool
        requires { d < 4096 }
        ensures is_new { result ≡ not (member_in 64 d self.old) }
        ensures with_it { self.new ≡ with_in 64 self.old d }
    {
        let is_new = !self.has(d);
        self.words[d / 64] = super::insert(self.words[d / 64], d % 64);
        is_new
    }

    #[tactic(auto, unfolding(crate::specs::Pages::without_in))]
    pub fn remove(&mut self, d: usize)
        requires { d < 4096 }
        ensures { self.new ≡ without_in 64 self.old d }
    {
        self.words[d / 64] = super::remove(self.words[d / 64], d % 64);
    }
}
