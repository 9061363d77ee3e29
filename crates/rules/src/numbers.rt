// What document 01 tells apart by number: kinds of pages, phases of a TVM, calls and refusals. A number that a host, a word or a byte holds may be none
// of these, so the lent words and bytes, and a call as it is asked, keep their numbers.
ghost use Rattle.std.specs.Prelude.{◌≡◌};
ghost use Rattle.rules.specs.Answers.{number_of};

// The kind of a page record.
#[derive(Clone, Copy, PartialEq, Eq)]
pub enum Kind {
    Ordinary = 0,
    Converting = 1,
    Free = 2,
    Directory = 3,
    TvmState = 4,
    VcpuState = 5,
    TablePool = 6,
    Mapped = 7,
    Blocked = 8,
}

// The phase of a slot.
#[derive(Clone, Copy, PartialEq, Eq)]
pub enum Phase {
    Empty = 0,
    Initializing = 1,
    Runnable = 2,
}

// A call of the table of calls.
#[derive(Clone, Copy, PartialEq, Eq)]
pub enum Operation {
    Convert = 1,
    Reclaim = 2,
    GlobalFence = 3,
    LocalFence = 4,
    Create = 5,
    Finalize = 6,
    Destroy = 8,
    Region = 9,
    PoolPages = 10,
    Measured = 11,
    Zero = 12,
    Vcpu = 14,
    Enter = 15,
    TvmFence = 16,
    Invalidate = 17,
    Validate = 18,
    Remove = 19,
    Leave = 32,
    Open = 33,
}

// Why a call is refused, by the number of the table of refusals.
#[derive(Clone, Copy, PartialEq, Eq)]
pub enum Refusal {
    UnknownCall = 1,
    NoTvm = 2,
    WrongPhase = 3,
    OutOfRange = 4,
    Address = 5,
    WrongKind = 6,
    NotDone = 7,
    StillAwaited = 8,
    NoRoom = 9,
    WrongRegion = 10,
    AlreadyMapped = 11,
    Occupied = 12,
    VersionsSpent = 13,
    LargeMappingCut = 14,
    LeftOutside = 15,
}

impl Refusal {
    // Its number in the table of refusals.
    pub fn number(self) -> u64
        ensures { result ≡ number_of self }
    {
        self as u64
    }
}
