// What is written over the records of a range that a call names.
ghost use Rattle.std.specs.Prelude.{◌≡◌, ◌+◌, ◌-◌, ◌*◌, ◌<◌, ◌≤◌, ◌^◌, ltb, length};
ghost use Rattle.rules.specs.Page.{over, page, guest_word};
ghost use Rattle.rules.specs.Calls.{index};
ghost use Rattle.rules.specs.Encoding.{view, pages_of};
ghost use Rattle.records.specs.Passes.{stepped};
ghost use Rattle.effects.specs.Ranges.{InTable, founded, given, mapping};

use looks::sight::index_of;
use records::range;
use rules::Page;
use rules::numbers::Kind;
use words::{Words, parts};

// A record that keeps neither a version nor a guest page.
fn bare_page(kind: u8, slot: u8) -> Page
    ensures { result ≡ page kind slot 0 0 }
{
    Page {
        kind,
        slot,
        version: 0,
        guest: 0,
    }
}

// `base` and `pages` stay two numbers: that they are in the table speaks of the table's length, which a type of the two could not.
// The pages from an address on become p, its guest word `step` more from each to the next.
fn give(t: &mut [u8], base: u64, pages: u64, p: Page, step: u32)
    requires { (InTable base pages t.old) × (p.guest + step * pages < 2 ^ 32) }
    ensures { pages_of t.new ≡ given (pages_of t.old) base pages (λ i. stepped p step (i - index base)) }
{
    range::fill_range(t, index_of(base), pages as u32, p, step);
}

// Every page becomes one of the kind with the slot. (A record may be of any kind, and this writes any.)
pub fn own(t: &mut [u8], base: u64, pages: u64, kind: u8, slot: u8)
    requires { InTable base pages t.old }
    ensures { pages_of t.new ≡ given (pages_of t.old) base pages (λ i. page kind slot 0 0) }
{
    give(t, base, pages, bare_page(kind, slot), 0);
}

// Every page becomes a converting one of the present global version.
pub fn convert(l: &Words, t: &mut [u8], base: u64, pages: u64)
    requires { InTable base pages t.old }
    ensures { pages_of t.new ≡ given (pages_of t.old) base pages (λ i. page 1 0 (view l.now).global.version 0) }
{
    let g = parts::global(l);
    let p = Page {
        version: g.version.0,
        ..bare_page(Kind::Converting as u8, 0)
    };
    give(t, base, pages, p, 0);
}

fn guest_word(first: u32, large: bool) -> u32
    requires { first ≤ 1048576 }
    ensures { result ≡ guest_word first large }
{
    if large { first + 2147483648 } else { first }
}

// "Page i of a range goes to guest page i". (`large` is bit 31, as the definition `guest_word` takes it, and picks no step.)
pub fn map(t: &mut [u8], base: u64, pages: u64, slot: u8, first: u32, large: bool)
    requires { (InTable base pages t.old) × (first + pages ≤ 1048576) }
    ensures { pages_of t.new ≡ given (pages_of t.old) base pages (mapping base slot first large) }
{
    let p = Page {
        guest: guest_word(first, large),
        ..bare_page(Kind::Mapped as u8, slot)
    };
    give(t, base, pages, p, 1);
}

// The four pages of the directory, and the state page. (The directory's come last: they are kind 3 whatever the state page is.)
pub fn found(t: &mut [u8], directory: u64, state: u64, slot: u8)
    requires { (InTable directory 4 t.old) × (InTable state 1 t.old) }
    ensures { pages_of t.new ≡ founded (pages_of t.old) directory state slot }
{
    own(&mut *t, state, 1, Kind::TvmState as u8, slot);
    own(t, directory, 4, Kind::Directory as u8, slot);
}

// Every record of the table becomes an ordinary one.
pub fn clear(t: &mut [u8], pages: u64)
    requires { (8 * pages ≤ length t.old) × (pages ≤ 4096) }
    ensures { pages_of t.new ≡ over (pages_of t.old) (λ i. ltb i pages) (λ i. page 0 0 0 0) }
{
    range::fill_range(t, 0, pages as u32, bare_page(Kind::Ordinary as u8, 0), 0);
}
