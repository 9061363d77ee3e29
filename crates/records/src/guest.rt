// 17 to 19: each guest page of a range means the lowest record that claims it. One pass over the table with the set of the guest pages seen, to
// look; another, to write. Both end with the last guest page: a record after it that claims one is not the lowest.
ghost use Rattle.std.specs.Prelude.{◌≡◌, ◌||◌, not, ◌+◌, ◌*◌, ◌≤◌, length};
ghost use Rattle.rules.specs.Page.{over, is_meant, is_cut};
ghost use Rattle.rules.specs.Encoding.{pages_of};
ghost use Rattle.rules.specs.Fence.{done};
ghost use Rattle.fences.specs.Trackers.{tvm_of};
ghost use Rattle.records.specs.Passes.{is_new, noted, guest_look, becomes, large_bit};

use super::record::{FREE, read, write};
use super::table::{claims_in, offset};
use fences::{TvmTracker, TvmVersion};
use rules::Page;
use rules::numbers::Kind;
use sets::pages::PageSet;

// A look found a guest range whose pages are all mapped and of the kind wanted; the version of some may not be done, some large mapping may be cut.
#[derive(Clone, Copy)]
pub struct AllMapped {
    pub undone: bool,
    pub cut: bool,
}

// The record is the first to claim one of the guest pages; that one is seen from now on.
fn is_first(seen: &mut PageSet, p: Page, slot: u8, first: u32, count: u32) -> bool
    requires { (first + count ≤ 1048576) × (count ≤ 4096) }
    ensures { (result ≡ is_new slot first count p seen.old) × (seen.new ≡ noted slot first count p seen.old) }
{
    if !claims_in(p, slot, first, count) {
        return false;
    }
    seen.insert(offset(p.guest, first) as usize)
}

fn is_cut(p: Page, first: u32, count: u32) -> bool
    requires { first + count ≤ 1048576 }
    ensures { result ≡ is_cut first count p }
{
    let guest = p.guest;
    if guest < 2147483648 {
        return false;
    }
    let block = guest % 1048576 / 512 * 512;
    !((first <= block) & (block + 512 <= first + count))
}

// Some version met so far is not done, or this one.
fn with_undone(undone: bool, fence: TvmTracker, version: u16) -> bool
    ensures { result ≡ (undone || not (done (tvm_of fence) version)) }
{
    if fence.done(TvmVersion(version)) {
        undone
    } else {
        true
    }
}

// Some large mapping met so far is cut, or this one. (As above a flag is written only where it is raised, which is less work for each record.)
fn with_cut(cut: bool, p: Page, first: u32, count: u32) -> bool
    requires { first + count ≤ 1048576 }
    ensures { result ≡ (cut || is_cut first count p) }
{
    if is_cut(p, first, count) { true } else { cut }
}

// None where a guest page is not mapped or of another kind.
// `n` is the ledger's number of pages, over which the definitions look; the table may be longer. A record may be of any kind, so `kind` is a number.
pub fn look(
    t: &[u8],
    n: usize,
    slot: u8,
    first: u32,
    count: u32,
    kind: u8,
    fence: TvmTracker,
) -> Option<AllMapped>
    requires { (8 * n ≤ length t.now) × (first + count ≤ 1048576) × (count ≤ 4096) }
    ensures { result ≡ guest_look (pages_of t.now) n slot first count kind (tvm_of fence) }
{
    let mut seen = PageSet::new();
    let mut missing = count;
    let mut undone = false;
    let mut cut = false;
    for i in 0..n {
        let p = read(t, i);
        if is_first(&mut seen, p, slot, first, count) {
            if p.kind != kind {
                return None;
            }
            undone = with_undone(undone, fence, p.version);
            cut = with_cut(cut, p, first, count);
            missing -= 1;
            if missing == 0 {
                return Some(AllMapped { undone, cut });
            }
        }
    }
    // A range of pages has returned by now where all were there.
    if missing == 0 {
        Some(AllMapped { undone, cut })
    } else {
        None
    }
}

fn large_bit(guest: u32) -> u32
    ensures { (result ≡ large_bit guest) × (result ≤ 2147483648) }
{
    if 2147483648 <= guest { 2147483648 } else { 0 }
}

// The record of a mapped page of the slot as it becomes: free, or of the kind and version, bit 31 kept.
fn moved(p: Page, slot: u8, kind: u8, version: u16) -> Page
    ensures { result ≡ becomes kind slot version p }
{
    if kind == Kind::Free as u8 {
        return FREE;
    }
    let guest = p.guest;
    Page {
        kind,
        slot,
        version,
        guest: guest % 1048576 + large_bit(guest),
    }
}

pub fn rewrite(t: &mut [u8], n: usize, slot: u8, first: u32, count: u32, kind: u8, version: u16)
    requires { (8 * n ≤ length t.old) × (first + count ≤ 1048576) × (count ≤ 4096) }
    ensures { pages_of t.new ≡ over (pages_of t.old) (is_meant (pages_of t.old) n slot first count) (λ i. becomes kind slot version ((pages_of t.old).page i)) }
{
    let mut seen = PageSet::new();
    let mut left = count;
    for i in 0..n {
        let p = read(t, i);
        if is_first(&mut seen, p, slot, first, count) {
            write(t, i, moved(p, slot, kind, version));
            left -= 1;
            if left == 0 {
                return;
            }
        }
    }
}
