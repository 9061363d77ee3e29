// What a call is asked with and answered, and a page record. The definitions of specs/ and the code share these types.

#![tactic(auto)]

pub mod numbers;
pub mod tables;

use numbers::Refusal;

#[derive(Clone, Copy)]
pub struct Call {
    pub number: u64,
    pub hart: u64,
    pub a0: u64,
    pub a1: u64,
    pub a2: u64,
    pub a3: u64,
    pub a4: u64,
    pub a5: u64,
}

// What an argument of a call is. HostBase is the address of ordinary pages (1's base, 11's source); FreeBase that of free pages (the base of
// 2, 10 and 12, 5's state page, 11's dest, 14's page).
#[derive(Clone, Copy)]
pub enum Role {
    Tvm = 1,
    Vcpu = 2,
    HostBase = 3,
    FreeBase = 4,
    DirectoryBase = 5,
    UnitCount = 6,
    UnitType = 7,
    GuestBase = 8,
    ByteLength = 9,
    HartCount = 10,
    PageCount = 11,
}

// An accepted call's value, or why it is refused.
pub type Answer = Result<u64, Refusal>;

// A record as the lent table has it, which may hold any byte: so kind and slot are numbers (`numbers::Kind` names the paper's).
#[derive(Clone, Copy)]
pub struct Page {
    pub kind: u8,
    pub slot: u8,
    pub version: u16,
    pub guest: u32,
}
