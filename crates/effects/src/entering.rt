// Entering and leaving.
ghost use Rattle.std.specs.Prelude.{◌≡◌, false};
ghost use Rattle.rules.specs.Ledger.{is_outside, place_number};
ghost use Rattle.rules.specs.Encoding.{view};
ghost use Rattle.effects.specs.Parts.{entered, flushed, left, struck_in};

use words::below::{Hart, Slot, Vcpu};
use words::parts::Seat;
use words::{Words, parts};

// The value is 1 where the hart flushes.
pub fn enter(l: &mut Words, h: Hart, k: Slot, v: Vcpu) -> u64
    ensures { (result ≡ flushed h k (view l.old)) × (view l.new ≡ entered h k v (view l.old)) }
{
    let t = parts::fence(&*l, k.number());
    let flushed = parts::enters_flushed(&*l, h.number(), k.number(), t.version);
    parts::set_inside(l, h, k, v, t.version);
    if flushed { 1 } else { 0 }
}

// The hart is struck out of the slot's fence. (A place that no call writes may name a slot that there is not; it awaits nobody.)
fn strike_out(l: &mut Words, k: u64, h: Hart)
    ensures { view l.new ≡ struck_in k h (view l.old) }
{
    if k < 16 {
        let mut t = parts::fence(&*l, k);
        t.strike(h.number() as u8);
        parts::set_fence(l, Slot::new(k), t);
    }
}

// The value is where the hart was.
pub fn leave(l: &mut Words, h: Hart) -> u64
    requires { is_outside ((view l.old).hart h).place ≡ false }
    ensures { (result ≡ place_number ((view l.old).hart h).place) × (view l.new ≡ left h (view l.old)) }
{
    match parts::place_of(&*l, h.number()) {
        None => 0,
        Some(Seat { slot, vcpu }) => {
            let k = slot as u64;
            strike_out(&mut *l, k, h);
            parts::set_outside(l, h);
            k * 8 + vcpu as u64
        }
    }
}
