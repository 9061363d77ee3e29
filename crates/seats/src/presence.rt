// Refusals 12 and 15: who is inside what.
ghost use Rattle.std.specs.Prelude.{◌≡◌};
ghost use Rattle.rules.specs.Ledger.{is_outside};
ghost use Rattle.rules.specs.declared.Role.TheVariants.{Tvm, Vcpu};
ghost use Rattle.rules.specs.Calls.{arg};
ghost use Rattle.rules.specs.Refusals as n;
ghost use Rattle.rules.specs.Encoding.{view, pages_of, bits};
ghost use Rattle.words.specs.Parts.{place_is};
ghost use Rattle.seats.specs.Harts.{is_there, there_of, busy_by};

use super::fencing::is_awaited;
use door::early::is_made;
use door::request::Request;
use rules::Role;
use rules::numbers::Operation;
use words::parts::Seat;
use words::{Words, parts};

fn is_outside(l: &Words, h: u64) -> bool
    ensures { result ≡ is_outside ((view l.now).hart h).place }
{
    parts::place_of(l, h).is_none()
}

// The place is in the slot, at that vCPU, or at any where none is given.
fn is_there(p: Option<Seat>, k: u64, vcpu: Option<u64>) -> bool
    ensures { result ≡ is_there k vcpu (place_is p) }
{
    match (p, vcpu) {
        (None, _) => false,
        (Some(seat), None) => seat.slot as u64 == k,
        (Some(seat), Some(v)) => (seat.slot as u64 == k) & (seat.vcpu as u64 == v),
    }
}

// The harts that are there, as a set in a byte.
pub fn there(l: &Words, k: u64, vcpu: Option<u64>) -> u8
    ensures { bits result ≡ there_of (view l.now) k vcpu }
{
    let mut set: u8 = 0;
    for h in 0..8u8 {
        if is_there(parts::place_of(l, h as u64), k, vcpu) {
            set = sets::insert(set, h as usize);
        }
    }
    set
}

// What refuses 8, 14 and 15 besides: somebody inside, a vCPU that is made, one that runs.
fn is_busy(l: &Words, r: &Request) -> bool
    ensures { result ≡ busy_by (view l.now) r.now.number (arg Tvm r.now) (arg Vcpu r.now) }
{
    let tvm = r.arg(Role::Tvm);
    let vcpu = r.arg(Role::Vcpu);
    (r.is(Operation::Vcpu) && is_made(l, tvm, vcpu))
        || (r.is(Operation::Enter) && is_awaited(there(l, tvm, Some(vcpu))))
        || (r.is(Operation::Destroy) && is_awaited(there(l, tvm, None)))
}

#[tactic(auto, using(crate::proofs::Seats::before_three), unfolding(rules::specs::Refusals::refuses12, sets::specs::Terms::one_of, sets::specs::Terms::one_from))]
pub fn refuses12(l: &Words, t: &[u8], r: &Request) -> bool
    ensures { result ≡ n.refuses12 (view l.now) (pages_of t.now) r.now }
{
    let outside = is_outside(l, r.hart());
    let busy = is_busy(l, r);
    (!r.is(Operation::Leave) & !outside) | busy
}

#[tactic(auto, unfolding(rules::specs::Refusals::refuses15))]
pub fn refuses15(l: &Words, t: &[u8], r: &Request) -> bool
    ensures { result ≡ n.refuses15 (view l.now) (pages_of t.now) r.now }
{
    r.is(Operation::Leave) && is_outside(l, r.hart())
}
