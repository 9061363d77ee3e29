// Refusal 10: a new region, or a guest range, against the regions of its TVM.
ghost use Rattle.std.specs.Prelude.{◌≡◌, ◌+◌, ◌≤◌};
ghost use Rattle.sets.specs.Look.{any};
ghost use Rattle.rules.specs.Refusals as n;
ghost use Rattle.rules.specs.Encoding.{view, pages_of};
ghost use Rattle.words.specs.Parts.{region_of};
ghost use Rattle.door.specs.Ready.{Ready};
ghost use Rattle.seats.specs.Regions.{Tests};

use door::request::Request;
use rules::Role;
use rules::numbers::Operation;
use words::parts::Region;
use words::{Words, parts};

// They have a page in common, and so neither is without pages. (`first` and `pages` stay two numbers, as the paper's conditions take them: a type
// with their bound would name its two fields in their place in each clause.)
fn overlaps(r: Region, first: u64, pages: u64) -> bool
    requires { first + pages ≤ 1048576 }
    ensures { result ≡ n.overlaps first pages (region_of r) }
{
    let from = r.first as u64;
    let to = from + r.pages as u64;
    let end = first + pages;
    (first < end) & (first < to) & (from < end) & (from < to)
}

fn holds(r: Region, first: u64, pages: u64) -> bool
    requires { first + pages ≤ 1048576 }
    ensures { result ≡ n.holds first pages (region_of r) }
{
    let from = r.first as u64;
    let to = from + r.pages as u64;
    let end = first + pages;
    (from <= first) & (end <= to)
}

// Some region of the slot passes.
fn any_region<F: Fn(Region) -> bool>(l: &Words, k: u64, test: F) -> bool
    requires { F.IsAlwaysCallable test }
    ensures { (p : _) → Tests (F.post test) p → result ≡ any (λ i. p (((view l.now).slot k).region i)) 8 }
{
    (0..8).any(|i| test(parts::region_at(l, k, i)))
}

#[tactic(auto, using(door::proofs::Ready::guest_fits, door::proofs::Ready::region_guest, door::proofs::Ready::typed_guest), unfolding(rules::specs::Refusals::refuses10))]
pub fn refuses10(l: &Words, t: &[u8], r: &Request, pages: u64) -> bool
    requires { Ready l.now t.now r.now pages }
    ensures { result ≡ n.refuses10 (view l.now) (pages_of t.now) r.now }
{
    let tvm = r.arg(Role::Tvm);
    let first = r.arg(Role::GuestBase) / 4096;
    if r.is(Operation::Region) {
        return any_region(l, tvm, |g| overlaps(g, first, pages));
    }
    if r.names(Role::UnitType) {
        return !any_region(l, tvm, |g| holds(g, first, pages));
    }
    false
}
