// Refusal 5: addresses, all reckoned without wrapping. What a call asks for is not refused 4 by then, so its size is known.
ghost use Rattle.std.specs.Prelude.{◌≡◌, cond, not, ◌&&◌, false, eqb, ltb, ◌<◌};
ghost use Rattle.sets.specs.Terms.{within};
ghost use Rattle.rules.specs.Calls.{size, span};
ghost use Rattle.rules.specs.Refusals as n;
ghost use Rattle.rules.specs.Encoding.{view, pages_of};
ghost use Rattle.door.specs.Extents.{Countable, size_by};
ghost use Rattle.door.specs.Places.{names_place, past_guest};

use super::extent::{Extent, Unit};
use super::request::Request;
use rules::Role;
use words::{Words, sizes};

// Where memory begins.
pub const MEMORY: u64 = 0x80000000;

// The pages of a unit.
fn unit_of(kind: u64) -> u64
    ensures { (result ≡ cond (eqb kind 1) 512 1) × (0 < result) × (result < 513) }
{
    if kind == Unit::Large as u64 { 512 } else { 1 }
}

fn pages_of(extent: Extent) -> u64
    requires { Countable extent }
    ensures { result ≡ size_by extent }
{
    match extent {
        Extent::Bytes(length) => length / 4096,
        Extent::Units { count, kind } => count * unit_of(kind),
        Extent::OnePage => 1,
    }
}

// Pages from an address on are not on their boundary, or not in a memory of `total` pages. The end is reckoned only where neither the address nor
// the number of pages is past all memory, so that the sum cannot wrap.
fn misplaced(base: u64, pages: u64, align: u64, total: u32) -> bool
    requires { (0 < align) × (align < 513) }
    ensures { result ≡ n.misplaced total (span base pages align) }
{
    let end = MEMORY + 4096 * (total as u64);
    if end < base {
        return true;
    }
    if (total as u64) < pages {
        return true;
    }
    (base % (4096 * align) != 0) | (base < MEMORY) | (end < base + 4096 * pages)
}

// A guest range ends past 2^32.
fn past_guest(base: u64, pages: u64) -> bool
    ensures { result ≡ past_guest base pages }
{
    if 4294967296 < base {
        return true;
    }
    if 1048576 < pages {
        return true;
    }
    4294967296 < base + 4096 * pages
}

// The state page is one of the directory's four.
fn in_directory(directory: u64, state: u64) -> bool
    ensures { result ≡ within directory 16384 state }
{
    if state < directory {
        return false;
    }
    state - directory < 16384
}

// The call names an address. Of one that names none 5, 6, 7 and 14 cannot hold, and nothing of them is reckoned.
pub fn names_place(r: &Request) -> bool
    ensures { result ≡ names_place r.now }
{
    r.names(Role::HostBase)
        | r.names(Role::DirectoryBase)
        | r.names(Role::FreeBase)
        | r.names(Role::GuestBase)
}

// How many pages the call's range has.
#[tactic(auto, using(crate::proofs::Ready::counted_not_9), unfolding(rules::specs::Calls::size))]
pub fn sized(r: &Request) -> u64
    requires { (not (eqb r.now.number 9) && ltb 4096 (size r.now)) ≡ false }
    ensures { result ≡ size r.now }
{
    pages_of(r.extent())
}

// Each line is a condition as `rules` has it, a name and a test, and needs no proof; with an Option for each address it is as long and needs one.
#[tactic(auto, using(rules::proofs::Spans::host_spans_lem, rules::proofs::Spans::free_spans_lem), unfolding(rules::specs::Refusals::refuses5, sets::specs::Terms::one_of, sets::specs::Terms::one_from))]
fn any_misplaced(l: &Words, t: &[u8], r: &Request, pages: u64) -> bool
    requires { pages ≡ size r.now }
    ensures { result ≡ n.refuses5 (view l.now) (pages_of t.now) r.now }
{
    let host = r.arg(Role::HostBase);
    let free = r.arg(Role::FreeBase);
    let directory = r.arg(Role::DirectoryBase);
    let guest = r.arg(Role::GuestBase);
    let unit = unit_of(r.arg(Role::UnitType));
    let total = sizes::pages(l);
    let guests = r.names(Role::GuestBase);
    let directories = r.names(Role::DirectoryBase);
    (r.names(Role::HostBase) & misplaced(host, pages, 1, total))
        | ((directories & misplaced(directory, 4, 4, total))
            | (r.names(Role::FreeBase) & misplaced(free, pages, unit, total)))
        | (guests & (guest % (4096 * unit) != 0))
        | (guests & past_guest(guest, pages))
        | (directories & in_directory(directory, free))
}

#[tactic(auto, using(crate::proofs::Placeless::not_5))]
pub fn refuses5(l: &Words, t: &[u8], r: &Request, pages: u64) -> bool
    requires { pages ≡ size r.now }
    ensures { result ≡ n.refuses5 (view l.now) (pages_of t.now) r.now }
{
    if names_place(r) {
        return any_misplaced(l, t, r, pages);
    }
    false
}
