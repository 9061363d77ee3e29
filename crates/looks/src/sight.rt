// Refusals 6, 7 and 14: what stands in the records that a call names. One look at each page, and one pass for guest pages, finds all three.
ghost use Rattle.std.specs.Prelude.{◌≡◌, ◌≤◌};
ghost use Rattle.sets.specs.Terms.{row};
ghost use Rattle.rules.specs.Calls.{memory, index, moves};
ghost use Rattle.rules.specs.Encoding.{view, pages_of};
ghost use Rattle.fences.specs.Trackers.{global_of};
ghost use Rattle.door.specs.Ready.{Ready};
ghost use Rattle.looks.specs.Sights.{Seen, InTable, look_at, guests_at};

use door::places::{MEMORY, names_place};
use door::request::Request;
use fences::GlobalTracker;
use records::guest::AllMapped;
use records::range::AllWanted;
use records::{guest, range};
use rules::Role;
use rules::numbers::{Kind, Operation};
use words::{Words, parts, sizes};

// Whether each of the three holds; of 7 and 14 only where 6 does not. (Three truth values, since 14 is asked only after 8 to 13: an Option would be
// taken apart for each of them.)
#[derive(Clone, Copy)]
pub struct Sight {
    pub refuses6: bool,
    pub refuses7: bool,
    pub refuses14: bool,
}

// The page of an address in memory.
pub fn index_of(base: u64) -> usize
    requires { memory ≤ base }
    ensures { result ≡ index base }
{
    ((base - MEMORY) / 4096) as usize
}

// At pages from an address on; nothing is amiss where the call names none. (`host` as in `range::look`.)
fn look_at(
    t: &[u8],
    base: Option<u64>,
    pages: u64,
    host: bool,
    fence: GlobalTracker,
) -> Option<AllWanted>
    requires { InTable base pages t.now }
    ensures { result ≡ look_at (pages_of t.now) base pages host (global_of fence) }
{
    match base {
        None => Some(AllWanted { unfinished: false }),
        Some(base) => range::look(t, index_of(base), pages as usize, host, fence),
    }
}

// 17 to 19.
pub fn is_move(r: &Request) -> bool
    ensures { result ≡ moves r.now }
{
    r.is(Operation::Invalidate) | r.is(Operation::Validate) | r.is(Operation::Remove)
}

// The kind that the guest pages of 17 to 19 must have, as the number that a record has.
fn kind_for(r: &Request) -> u8
    ensures { result ≡ row r.now.number 17 7 8 }
{
    if r.is(Operation::Invalidate) {
        Kind::Mapped as u8
    } else {
        Kind::Blocked as u8
    }
}

fn guests_at(l: &Words, t: &[u8], r: &Request, pages: u64) -> Option<AllMapped>
    requires { Ready l.now t.now r.now pages }
    ensures { result ≡ guests_at (view l.now) (pages_of t.now) r.now }
{
    if is_move(r) {
        let tvm = r.arg(Role::Tvm);
        let first = r.arg(Role::GuestBase) / 4096;
        let total = sizes::pages(l);
        let fence = parts::fence(l, tvm);
        return guest::look(
            t,
            total as usize,
            tvm as u8,
            first as u32,
            pages as u32,
            kind_for(r),
            fence,
        );
    }
    Some(AllMapped {
        undone: false,
        cut: false,
    })
}

fn look_at_all(l: &Words, t: &[u8], r: &Request, pages: u64) -> Sight
    requires { Ready l.now t.now r.now pages }
    ensures { Seen (view l.now) (pages_of t.now) r.now result }
{
    let fence = parts::global(l);
    let host = look_at(t, r.named(Role::HostBase), pages, true, fence);
    let directory = look_at(t, r.named(Role::DirectoryBase), 4, false, fence);
    let free = look_at(t, r.named(Role::FreeBase), pages, false, fence);
    let guests = guests_at(l, t, r, pages);
    let refuses6 = host.is_none() | (directory.is_none() | free.is_none()) | guests.is_none();
    let refuses7 = (directory.is_some_and(|w| w.unfinished) | free.is_some_and(|w| w.unfinished))
        | ((r.is(Operation::Validate) | r.is(Operation::Remove))
            & guests.is_some_and(|m| m.undone));
    let refuses14 = guests.is_some_and(|m| m.cut);
    Sight {
        refuses6,
        refuses7,
        refuses14,
    }
}

pub fn look(l: &Words, t: &[u8], r: &Request, pages: u64) -> Sight
    requires { Ready l.now t.now r.now pages }
    ensures { Seen (view l.now) (pages_of t.now) r.now result }
{
    if names_place(r) {
        return look_at_all(l, t, r, pages);
    }
    Sight {
        refuses6: false,
        refuses7: false,
        refuses14: false,
    }
}
