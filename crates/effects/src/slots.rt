// What becomes of a slot: create, destroy, a region, a vCPU.
ghost use Rattle.std.specs.Prelude.{◌≡◌, ◌+◌, ◌<◌, ◌≤◌};
ghost use Rattle.sets.specs.Look.{lowest};
ghost use Rattle.rules.specs.Ledger.{with_slot, bare as bare_with};
ghost use Rattle.rules.specs.Refusals as n;
ghost use Rattle.rules.specs.Effects.{destroyed};
ghost use Rattle.rules.specs.Encoding.{view};
ghost use Rattle.fences.specs.Trackers.{tvm_of};
ghost use Rattle.effects.specs.Parts.{added, cleared, peopled};

use fences::TvmTracker;
use rules::numbers::Phase;
use seats::room::unused;
use words::below::{Slot, Vcpu};
use words::parts::Region;
use words::{Words, parts};

fn clear_regions(l: &mut Words, k: Slot)
    ensures { view l.new ≡ with_slot k (cleared ((view l.old).slot k)) (view l.old) }
{
    for i in 0..8 {
        parts::set_region(&mut *l, k, i, Region { first: 0, pages: 0 });
    }
}

// A slot of that phase and fence, with no vCPUs and no regions.
fn bare(l: &mut Words, k: Slot, phase: u32, t: TvmTracker)
    ensures { view l.new ≡ with_slot k (bare_with phase (tvm_of t)) (view l.old) }
{
    clear_regions(&mut *l, k);
    parts::set_made(&mut *l, k, t, 0);
    parts::set_phase(l, k, phase);
}

// "Slot versions outlive TVMs": the fence stays as it is.
pub fn create(l: &mut Words, k: Slot)
    ensures { view l.new ≡ with_slot k (bare_with 1 ((view l.old).slot k).fence) (view l.old) }
{
    let t = parts::fence(&*l, k.number());
    bare(l, k, Phase::Initializing as u32, t);
}

pub fn destroy(l: &mut Words, k: Slot)
    ensures { view l.new ≡ with_slot k (destroyed ((view l.old).slot k)) (view l.old) }
{
    let t = parts::fence(&*l, k.number());
    bare(l, k, Phase::Empty as u32, t.ended());
}

// The region takes the lowest place that has none. (`first` and `pages` are two of the call's arguments, as refusal 10 takes them.)
pub fn add_region(l: &mut Words, k: Slot, first: u64, pages: u64)
    requires { (first + pages ≤ 1048576) × (lowest (n.unused ((view l.old).slot k)) 8 < 8) }
    ensures { view l.new ≡ with_slot k (added first pages ((view l.old).slot k)) (view l.old) }
{
    let r = Region {
        first: first as u32,
        pages: pages as u32,
    };
    // There is one; `unwrap` says so too, and leaves a trap in the library's code, which has none.
    if let Some(i) = unused(&*l, k.number()) {
        parts::set_region(l, k, i, r);
    }
}

pub fn make_vcpu(l: &mut Words, k: Slot, v: Vcpu)
    ensures { view l.new ≡ with_slot k (peopled v ((view l.old).slot k)) (view l.old) }
{
    let t = parts::fence(&*l, k.number());
    let made = parts::made(&*l, k.number());
    parts::set_made(l, k, t, sets::insert(made, v.number() as usize));
}
