// What an accepted call makes of the ledger, and its value.
ghost use Rattle.std.specs.Prelude.{◌≡◌, ◌<◌};
ghost use Rattle.rules.specs.Ledger.{with_slot, bare};
ghost use Rattle.rules.specs.Calls.{size};
ghost use Rattle.rules.specs.Refusals as n;
ghost use Rattle.rules.specs.Encoding.{view};
ghost use Rattle.ledger.specs.Settled.{Lawful, Kept, InSlots};

use door::request::Request;
use effects::{entering, fencing, slots};
use rules::Role;
use rules::numbers::{Operation, Phase};
use seats::room::taken;
use words::below::{Hart, Slot, Vcpu};
use words::{Words, parts, sizes};

// The value is the slot.
fn create(l: &mut Words) -> u64
    requires { n.taken (view l.old) < 16 }
    ensures { (result ≡ n.taken (view l.old)) × (view l.new ≡ with_slot (n.taken (view l.old)) (bare 1 ((view l.old).slot (n.taken (view l.old))).fence) (view l.old)) }
{
    // There is one; `unwrap` says so too, and leaves a trap in the library's code, which has none.
    let Some(k) = taken(&*l) else {
        return 0;
    };
    slots::create(l, Slot::new(k));
    k
}

// One test after another, here and in `table`: a `match` would first want an Operation of every number, and its last arm the calls that there are not.
// 6, 8, 9, 14 and 33, whose value is 0 as where none is named; the other calls leave the ledger as it is.
fn on_slots(l: &mut Words, r: &Request, pages: u64) -> u64
    requires { Lawful (view l.old) r.now × (pages ≡ size r.now) × InSlots r.now }
    ensures { Kept (view l.old) r.now result (view l.new) }
{
    let tvm = r.arg(Role::Tvm);
    if r.is(Operation::Finalize) {
        parts::set_phase(l, Slot::new(tvm), Phase::Runnable as u32)
    } else if r.is(Operation::Destroy) {
        slots::destroy(l, Slot::new(tvm))
    } else if r.is(Operation::Region) {
        slots::add_region(l, Slot::new(tvm), r.arg(Role::GuestBase) / 4096, pages)
    } else if r.is(Operation::Vcpu) {
        slots::make_vcpu(l, Slot::new(tvm), Vcpu::new(r.arg(Role::Vcpu)))
    } else if r.is(Operation::Open) {
        sizes::open(
            l,
            r.arg(Role::HartCount) as u8,
            r.arg(Role::PageCount) as u32,
        )
    }
    0
}

pub fn on_ledger(l: &mut Words, r: &Request, pages: u64) -> u64
    requires { Lawful (view l.old) r.now × (pages ≡ size r.now) }
    ensures { Kept (view l.old) r.now result (view l.new) }
{
    let hart = r.hart();
    let tvm = r.arg(Role::Tvm);
    if r.is(Operation::GlobalFence) {
        fencing::global_fence(l, Hart::new(hart))
    } else if r.is(Operation::LocalFence) {
        fencing::local_fence(l, Hart::new(hart))
    } else if r.is(Operation::Create) {
        create(l)
    } else if r.is(Operation::Enter) {
        entering::enter(
            l,
            Hart::new(hart),
            Slot::new(tvm),
            Vcpu::new(r.arg(Role::Vcpu)),
        )
    } else if r.is(Operation::TvmFence) {
        fencing::tvm_fence(l, Slot::new(tvm))
    } else if r.is(Operation::Leave) {
        entering::leave(l, Hart::new(hart))
    } else {
        on_slots(l, r, pages)
    }
}
