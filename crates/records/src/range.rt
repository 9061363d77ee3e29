// A range of records: a look that may refuse, and a write through the part of the table that the range is.
ghost use Rattle.std.specs.Prelude.{◌≡◌, ◌+◌, ◌*◌, ◌-◌, ◌≤◌, ◌<◌, ◌^◌, ltb, length};
ghost use Rattle.sets.specs.Terms.{within};
ghost use Rattle.rules.specs.Page.{over};
ghost use Rattle.rules.specs.Encoding.{pages_of};
ghost use Rattle.fences.specs.Trackers.{global_of};
ghost use Rattle.records.specs.Passes.{wanted, unfinished, range_look, stepped};

use super::record::{read, write};
use fences::{GlobalTracker, GlobalVersion};
use rules::Page;
use rules::numbers::Kind;

// A look found a range whose pages are all wanted; some may be in a conversion that is not done.
#[derive(Clone, Copy)]
pub struct AllWanted {
    pub unfinished: bool,
}

// An ordinary page where the host's are wanted, else a free one. (`host` is the definition's own: a closure in its place would have to say in each contract what it asks.)
fn is_wanted(host: bool, kind: u8) -> bool
    ensures { result ≡ wanted host kind }
{
    if host {
        kind == Kind::Ordinary as u8
    } else {
        (kind == Kind::Converting as u8) | (kind == Kind::Free as u8)
    }
}

fn is_unfinished(p: Page, fence: GlobalTracker) -> bool
    ensures { result ≡ unfinished (global_of fence) p }
{
    let kind = p.kind;
    if kind == Kind::Converting as u8 {
        !fence.done(GlobalVersion(p.version))
    } else {
        false
    }
}

// None where a page of the range is of another kind.
pub fn look(
    t: &[u8],
    first: usize,
    count: usize,
    host: bool,
    fence: GlobalTracker,
) -> Option<AllWanted>
    requires { 8 * (first + count) ≤ length t.now }
    ensures { result ≡ range_look (pages_of t.now) first count host (global_of fence) }
{
    let mut waits = false;
    for i in 0..count {
        let p = read(t, first + i);
        if !is_wanted(host, p.kind) {
            return None;
        }
        waits = waits | is_unfinished(p, fence);
    }
    Some(AllWanted { unfinished: waits })
}

fn page_of(p: Page, step: u32, i: u32) -> Page
    requires { p.guest + step * i < 2 ^ 32 }
    ensures { result ≡ stepped p step i }
{
    Page {
        kind: p.kind,
        slot: p.slot,
        version: p.version,
        guest: p.guest + step * i,
    }
}

// The first `count` records of the part that is lent become p, its guest word `step` more from each to the next. (So the record that comes next is no
// value of its own: `p` and `step` stay two, and that no word runs over is said where they are used.)
pub fn fill(part: &mut [u8], count: u32, p: Page, step: u32)
    requires { (8 * count ≤ length part.old) × (p.guest + step * count < 2 ^ 32) }
    ensures { pages_of part.new ≡ over (pages_of part.old) (λ i. ltb i count) (stepped p step) }
{
    for i in 0..count {
        write(part, i as usize, page_of(p, step, i));
    }
}

// The same for the `count` records from `first` on: only the records of the named range are handed on.
pub fn fill_range(t: &mut [u8], first: usize, count: u32, p: Page, step: u32)
    requires { (8 * (first + count) ≤ length t.old) × (p.guest + step * count < 2 ^ 32) }
    ensures { pages_of t.new ≡ over (pages_of t.old) (within first count) (λ i. stepped p step (i - first)) }
{
    let a = 8 * first;
    let e = 8 * (first + count as usize);
    fill(&mut t[a..e], count, p, step);
}
