// Fence versions and trackers. "The global version and a TVM's version count different fences and never meet in a comparison": two types, so
// that a page's recorded version meets only its own tracker.

#![tactic(auto)]

ghost use Rattle.std.specs.Prelude.{◌≡◌, ℕ, ◌+◌, ◌<◌, refl};
ghost use Rattle.rules.specs.Fence.{done, number as how_many};
ghost use Rattle.rules.specs.Ledger.{flushes as flushes_at};
ghost use Rattle.rules.specs.Encoding.{bits};
ghost use Rattle.fences.specs.Trackers.{tracked, begun, struck, mark_of, tvm_ended};

mod lent;

// A version of one sort of fence: a number in a type of its own.
pub trait Version: Copy {
    ghost number: { Self → ℕ };

    ghost numbered: { ℕ → Self };

    fn number(self) -> u16
        ensures { result ≡ number self };

    fn new(n: u16) -> Self
        ensures { result ≡ numbered n };

    // A version has the number that it was made with.
    ghost keeps: { (n : ℕ) → number (numbered n) ≡ n };
}

// Two tuple structs, as the paper's two sorts of fence want it, so the trait has two impls alike.
#[derive(Clone, Copy, PartialEq, Eq)]
pub struct GlobalVersion(pub u16);

#[derive(Clone, Copy, PartialEq, Eq)]
pub struct TvmVersion(pub u16);

impl Version for GlobalVersion {
    ghost number = { λ v. v.0 };

    ghost numbered = { λ n. record { 0 = n } };

    ghost keeps = { λ n. refl };

    fn number(self) -> u16 {
        self.0
    }

    fn new(n: u16) -> GlobalVersion {
        GlobalVersion(n)
    }
}

impl Version for TvmVersion {
    ghost number = { λ v. v.0 };

    ghost numbered = { λ n. record { 0 = n } };

    ghost keeps = { λ n. refl };

    fn number(self) -> u16 {
        self.0
    }

    fn new(n: u16) -> TvmVersion {
        TvmVersion(n)
    }
}

// The present version, and the awaited harts as a set in a byte.
#[derive(Clone, Copy)]
pub struct Tracker<V> {
    pub version: V,
    pub awaited: u8,
}

pub type GlobalTracker = Tracker<GlobalVersion>;

pub type TvmTracker = Tracker<TvmVersion>;

// The reported value: how many harts are in the set.
pub fn how_many(awaited: u8) -> u32
    ensures { result ≡ how_many (bits awaited) }
{
    sets::size(awaited)
}

impl<V: Version> Tracker<V> {
    // "A version recorded as r is done when the present version is at least r + 2, or is r + 1 with no hart awaited."
    pub fn done(self, recorded: V) -> bool
        ensures { result ≡ done (tracked V.number self) (V.number recorded) }
    {
        match self.version.number().saturating_sub(recorded.number()) {
            0 => false,
            1 => self.awaited == 0,
            _ => true,
        }
    }

    pub fn begun(self, awaited: u8) -> Tracker<V>
        requires { V.number self.version < 65535 }
        ensures { result ≡ begun V.number V.numbered self awaited }
    {
        let version = V::new(self.version.number() + 1);
        Tracker { version, awaited }
    }

    pub fn struck(self, hart: u8) -> Tracker<V>
        requires { hart < 8 }
        ensures { result ≡ struck self hart }
    {
        let version = self.version;
        let awaited = sets::remove(self.awaited, hart as usize);
        Tracker { version, awaited }
    }
}

impl Tracker<TvmVersion> {
    // "Destroy adds 1 (65,535 stays)".
    pub fn ended(self) -> TvmTracker
        ensures { result ≡ tvm_ended self }
    {
        let version = TvmVersion(self.version.0.saturating_add(1));
        let awaited = self.awaited;
        Tracker { version, awaited }
    }
}

// Entry flushes exactly when the hart's mark, the version at its last flush for the slot, is not the slot's version.
pub fn flushes(mark: Option<TvmVersion>, version: TvmVersion) -> bool
    ensures { result ≡ flushes_at (mark_of mark) version.0 }
{
    mark != Some(version)
}
