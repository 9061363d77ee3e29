// The whole table: whether a record claims a guest page of a range, and the records of a slot taken back.
ghost use Rattle.std.specs.Prelude.{◌≡◌, ◌&&◌, ◌+◌, ◌*◌, ◌≤◌, ltb, eqb, length};
ghost use Rattle.sets.specs.Look.{any};
ghost use Rattle.rules.specs.Page.{over, page, meant, is_given};
ghost use Rattle.rules.specs.Encoding.{pages_of};
ghost use Rattle.records.specs.Passes.{claims_in, offset_of};

use super::record::{FREE, read, write};
use rules::Page;
use rules::numbers::Kind;

// How far the page of a guest word is after `first`, counting on from the last guest page to page 0: so one test tells whether it is in a range.
pub fn offset(guest: u32, first: u32) -> u32
    requires { first ≤ 1048576 }
    ensures { result ≡ offset_of guest first }
{
    (guest % 1048576 + 1048576 - first) % 1048576
}

// The record claims one of the `count` guest pages of the slot from `first` on. Most records fail one of the first two tests. (The three numbers stay
// apart: as a struct each clause would name its three fields in their place, and of the two bounds only the first is every caller's.)
pub fn claims_in(p: Page, slot: u8, first: u32, count: u32) -> bool
    requires { first + count ≤ 1048576 }
    ensures { result ≡ claims_in slot first count p }
{
    let kind = p.kind;
    if kind < Kind::Mapped as u8 {
        return false;
    }
    if count <= offset(p.guest, first) {
        return false;
    }
    let own = p.slot;
    (kind <= Kind::Blocked as u8) & (own == slot)
}

// Some guest page of the range is mapped.
pub fn any_claimed(t: &[u8], n: usize, slot: u8, first: u32, count: u32) -> bool
    requires { (8 * n ≤ length t.now) × (first + count ≤ 1048576) }
    ensures { result ≡ any (λ d. ltb (meant (pages_of t.now) n slot (first + d)) n) count }
{
    (0..n).any(|i| claims_in(read(t, i), slot, first, count))
}

fn is_given(p: Page, slot: u8) -> bool
    ensures { result ≡ (is_given p && eqb p.slot slot) }
{
    let kind = p.kind;
    let own = p.slot;
    (Kind::Directory as u8 <= kind) & (kind <= Kind::Blocked as u8) & (own == slot)
}

// Every record of kinds 3 to 8 with the slot becomes free.
pub fn take_back(t: &mut [u8], n: usize, slot: u8)
    requires { length t.old ≡ 8 * n }
    ensures { pages_of t.new ≡ over (pages_of t.old) (λ i. is_given ((pages_of t.old).page i) && eqb ((pages_of t.old).page i).slot slot) (λ i. page 2 0 0 0) }
{
    for i in 0..n {
        if is_given(read(t, i), slot) {
            write(t, i, FREE);
        }
    }
}
