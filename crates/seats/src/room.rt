// Refusal 9: the slot that create would take, and the place that a region would.
ghost use Rattle.std.specs.Prelude.{◌≡◌};
ghost use Rattle.sets.specs.Look.{lowest};
ghost use Rattle.rules.specs.Refusals as n;
ghost use Rattle.rules.specs.Encoding.{view, pages_of};
ghost use Rattle.seats.specs.Room.{found};

use door::request::Request;
use rules::Role;
use rules::numbers::{Operation, Phase};
use words::{Words, parts};

fn is_takeable(l: &Words, k: u64) -> bool
    ensures { result ≡ n.takeable (view l.now) k }
{
    let phase = parts::phase(l, k);
    let f = parts::fence(l, k);
    (phase == Phase::Empty as u32) & (f.version.0 < 65534)
}

// The lowest slot that create may take.
pub fn taken(l: &Words) -> Option<u64>
    ensures { result ≡ found 16 (n.taken (view l.now)) }
{
    (0..16).find(|k| is_takeable(l, *k))
}

fn is_unused(l: &Words, k: u64, i: u64) -> bool
    ensures { result ≡ n.unused ((view l.now).slot k) i }
{
    let r = parts::region_at(l, k, i);
    r.pages == 0
}

// The lowest place of the slot that has no region.
pub fn unused(l: &Words, k: u64) -> Option<u64>
    ensures { result ≡ found 8 (lowest (n.unused ((view l.now).slot k)) 8) }
{
    (0..8).find(|i| is_unused(l, k, *i))
}

#[tactic(auto, unfolding(rules::specs::Refusals::refuses9))]
pub fn refuses9(l: &Words, t: &[u8], r: &Request) -> bool
    ensures { result ≡ n.refuses9 (view l.now) (pages_of t.now) r.now }
{
    if r.is(Operation::Create) {
        return taken(l).is_none();
    }
    if r.is(Operation::Region) {
        return unused(l, r.arg(Role::Tvm)).is_none();
    }
    false
}
