// Refusals 1 to 4, which look at no record.
ghost use Rattle.std.specs.Prelude.{◌≡◌, length};
ghost use Rattle.rules.specs.Page.{fits as fits_table};
ghost use Rattle.rules.specs.Ledger.{is_open};
ghost use Rattle.rules.specs.Refusals as n;
ghost use Rattle.rules.specs.Encoding.{view, pages_of};
ghost use Rattle.door.specs.Asked.{names_for_4};
ghost use Rattle.door.specs.Extents.{long_by};

use super::extent::{Extent, Unit};
use super::request::Request;
use rules::Role;
use rules::numbers::{Operation, Phase};
use words::{Words, parts, sizes};

#[tactic(auto, unfolding(rules::specs::Refusals::refuses1))]
pub fn refuses1(l: &Words, t: &[u8], r: &Request) -> bool
    ensures { result ≡ n.refuses1 (view l.now) (pages_of t.now) r.now }
{
    r.is_unknown()
}

#[tactic(auto, unfolding(rules::specs::Refusals::refuses2))]
pub fn refuses2(l: &Words, t: &[u8], r: &Request) -> bool
    ensures { result ≡ n.refuses2 (view l.now) (pages_of t.now) r.now }
{
    let tvm = r.arg(Role::Tvm);
    let named = r.names(Role::Tvm);
    let phase = parts::phase(l, tvm);
    named & ((15 < tvm) | (phase == Phase::Empty as u32))
}

fn is_open(l: &Words) -> bool
    ensures { result ≡ is_open (view l.now) }
{
    let harts = sizes::harts(l);
    let pages = sizes::pages(l);
    ((1 <= harts) & (harts < 9)) & ((1 <= pages) & (pages < 4097))
}

fn size_of(t: &[u8]) -> u64
    ensures { result ≡ length t.now }
{
    t.len() as u64
}

#[tactic(auto, unfolding(rules::specs::Encoding::pages_of))]
fn fits(t: &[u8], n: u64) -> bool
    ensures { result ≡ fits_table (pages_of t.now) n }
{
    let len = size_of(t);
    (len / 8 == n) & (len % 8 == 0)
}

#[tactic(auto, unfolding(rules::specs::Refusals::refuses3, sets::specs::Terms::one_of, sets::specs::Terms::one_from))]
pub fn refuses3(l: &Words, t: &[u8], r: &Request) -> bool
    ensures { result ≡ n.refuses3 (view l.now) (pages_of t.now) r.now }
{
    let named = r.names(Role::Tvm);
    let phase = parts::phase(l, r.arg(Role::Tvm));
    let lawful = r.is_lawful(phase as u64);
    let opens = r.is(Operation::Open);
    let open = is_open(l);
    let pages = sizes::pages(l);
    let sized = fits(t, pages as u64);
    (named & !lawful) | (!opens & !open) | (opens & open) | (!opens & !sized)
}

// A range has more than 4,096 pages. (A count of large pages may be too long for its pages to be counted.)
fn is_long(extent: Extent) -> bool
    ensures { result ≡ long_by extent }
{
    match extent {
        Extent::Bytes(length) => 4096 < length / 4096,
        Extent::Units { count, kind } if kind == Unit::Large as u64 => 8 < count,
        Extent::Units { count, .. } => 4096 < count,
        Extent::OnePage => false,
    }
}

// (Conditions ask a name and its value apart, here and in `places`, as the definitions do.)
// The vCPU of the slot is made.
#[tactic(auto, using(crate::proofs::Named::made_past))]
pub fn is_made(l: &Words, k: u64, v: u64) -> bool
    ensures { result ≡ ((view l.now).slot k).made v }
{
    let set = parts::made(l, k);
    if v < 8 {
        sets::has(set, v as usize)
    } else {
        false
    }
}

#[tactic(auto, using(crate::proofs::Named::long_is), unfolding(rules::specs::Refusals::refuses4, sets::specs::Terms::one_of, sets::specs::Terms::one_from))]
fn any_out_of_range(l: &Words, t: &[u8], r: &Request) -> bool
    ensures { result ≡ n.refuses4 (view l.now) (pages_of t.now) r.now }
{
    let hart = r.hart();
    let count = r.arg(Role::UnitCount);
    let kind = r.arg(Role::UnitType);
    let length = r.arg(Role::ByteLength);
    let vcpu = r.arg(Role::Vcpu);
    let harts = r.arg(Role::HartCount);
    let pages = r.arg(Role::PageCount);
    let all = sizes::harts(l);
    let opens = r.is(Operation::Open);
    let counted = r.names(Role::UnitCount);
    let typed = r.names(Role::UnitType);
    let measured = r.names(Role::ByteLength);
    let long = is_long(r.extent());
    let seated = r.names(Role::Vcpu);
    let made = is_made(l, r.arg(Role::Tvm), vcpu);
    let sized = fits(t, pages);
    (opens & (0 < hart))
        | (!opens & (all as u64 <= hart))
        | r.has_spare()
        | (counted & (count == 0))
        | (typed & ((Unit::Large as u64) < kind))
        | (!r.is(Operation::Region) & long)
        | (measured & (length == 0))
        | (measured & !(length % 4096 == 0))
        | (seated & (7 < vcpu))
        | (r.is(Operation::Enter) & !made)
        | (opens & !((1 <= harts) & (harts < 9)))
        | (opens & !(((1 <= pages) & (pages < 4097)) & sized))
}

// There is more for 4 to look at than the hart: an argument of one of these roles, or one that is not named and not 0.
#[tactic(auto, unfolding(sets::specs::Terms::one_of, sets::specs::Terms::one_from))]
fn names_for_4(r: &Request) -> bool
    ensures { result ≡ names_for_4 r.now }
{
    r.has_spare()
        | r.names(Role::Vcpu)
        | r.names(Role::UnitCount)
        | r.names(Role::UnitType)
        | r.names(Role::ByteLength)
        | r.names(Role::HartCount)
        | r.names(Role::PageCount)
}

// Of a call that names none of these only the hart can be out of range.
#[tactic(auto, using(crate::proofs::Bare::only_hart))]
pub fn refuses4(l: &Words, t: &[u8], r: &Request) -> bool
    ensures { result ≡ n.refuses4 (view l.now) (pages_of t.now) r.now }
{
    if names_for_4(r) {
        return any_out_of_range(l, t, r);
    }
    sizes::harts(l) as u64 <= r.hart()
}
