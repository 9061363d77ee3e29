// Refusals 8 and 13: what refuses a fence besides its place. A local fence begins none, and neither is said of it.
ghost use Rattle.std.specs.Prelude.{◌≡◌};
ghost use Rattle.rules.specs.Fence.{someone};
ghost use Rattle.rules.specs.Refusals as n;
ghost use Rattle.rules.specs.Encoding.{view, pages_of, bits};

use door::request::Request;
use rules::Role;
use rules::numbers::Operation;
use words::{Words, parts};

pub fn is_awaited(awaited: u8) -> bool
    ensures { result ≡ someone (bits awaited) }
{
    awaited != 0
}

#[tactic(auto, unfolding(rules::specs::Refusals::refuses8))]
pub fn refuses8(l: &Words, t: &[u8], r: &Request) -> bool
    ensures { result ≡ n.refuses8 (view l.now) (pages_of t.now) r.now }
{
    (r.is(Operation::GlobalFence) && is_awaited(parts::global(l).awaited))
        || (r.is(Operation::TvmFence) && is_awaited(parts::fence(l, r.arg(Role::Tvm)).awaited))
}

#[tactic(auto, unfolding(rules::specs::Refusals::refuses13))]
pub fn refuses13(l: &Words, t: &[u8], r: &Request) -> bool
    ensures { result ≡ n.refuses13 (view l.now) (pages_of t.now) r.now }
{
    (r.is(Operation::GlobalFence) && 65535 <= parts::global(l).version.0)
        || (r.is(Operation::TvmFence) && 65534 <= parts::fence(l, r.arg(Role::Tvm)).version.0)
}
