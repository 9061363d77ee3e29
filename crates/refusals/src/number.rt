// Why a call is refused: the refusal of the lowest number whose condition holds. No later condition is looked at.
ghost use Rattle.std.specs.Prelude.{◌≡◌, true, false, drop, MatchResult};
ghost use Rattle.rules.specs.Refusals as n;
ghost use Rattle.rules.specs.Answers.{given};
ghost use Rattle.rules.specs.Encoding.{view, pages_of};
ghost use Rattle.door.specs.Ready.{Ready};

use door::early::{refuses1, refuses2, refuses3, refuses4};
use door::places::{refuses5, sized};
use door::request::Request;
use looks::claimed::refuses11;
use looks::sight;
use rules::numbers::Refusal;
use seats::fencing::{refuses8, refuses13};
use seats::presence::{refuses12, refuses15};
use seats::regions::refuses10;
use seats::room::refuses9;
use words::Words;

// One condition, and the refusal that it is the condition of.
fn unless(refuses: bool, why: Refusal) -> Result<(), Refusal>
    ensures { MatchResult result (λ _. refuses ≡ false) (λ e. (refuses ≡ true) × (e ≡ why)) }
{
    if refuses { Err(why) } else { Ok(()) }
}

// 12 to 15; whether 14 holds is known.
fn from_12(l: &Words, t: &[u8], r: &Request, refuses14: bool) -> Result<(), Refusal>
    requires { refuses14 ≡ n.refuses14 (view l.now) (pages_of t.now) r.now }
    ensures { given result ≡ n.lowest_of 12 (drop 6 (n.late (view l.now) (pages_of t.now) r.now)) }
{
    unless(refuses12(l, t, r), Refusal::Occupied)?;
    unless(refuses13(l, t, r), Refusal::VersionsSpent)?;
    unless(refuses14, Refusal::LargeMappingCut)?;
    unless(refuses15(l, t, r), Refusal::LeftOutside)
}

// 8 to 15.
fn from_8(l: &Words, t: &[u8], r: &Request, pages: u64, refuses14: bool) -> Result<(), Refusal>
    requires { Ready l.now t.now r.now pages × (refuses14 ≡ n.refuses14 (view l.now) (pages_of t.now) r.now) }
    ensures { given result ≡ n.lowest_of 8 (drop 2 (n.late (view l.now) (pages_of t.now) r.now)) }
{
    unless(refuses8(l, t, r), Refusal::StillAwaited)?;
    unless(refuses9(l, t, r), Refusal::NoRoom)?;
    unless(refuses10(l, t, r, pages), Refusal::WrongRegion)?;
    unless(refuses11(l, t, r, pages), Refusal::AlreadyMapped)?;
    from_12(l, t, r, refuses14)
}

// 6 to 15.
fn from_6(l: &Words, t: &[u8], r: &Request, pages: u64) -> Result<(), Refusal>
    requires { Ready l.now t.now r.now pages }
    ensures { given result ≡ n.lowest_of 6 (n.late (view l.now) (pages_of t.now) r.now) }
{
    let seen = sight::look(l, t, r, pages);
    unless(seen.refuses6, Refusal::WrongKind)?;
    unless(seen.refuses7, Refusal::NotDone)?;
    from_8(l, t, r, pages, seen.refuses14)
}

// The first five look at no record, and give the bounds that the others need.
#[tactic(auto, unfolding(rules::specs::Refusals::refusal))]
pub fn refusal(l: &Words, t: &[u8], r: &Request) -> Result<(), Refusal>
    ensures { given result ≡ n.refusal (view l.now) (pages_of t.now) r.now }
{
    unless(refuses1(l, t, r), Refusal::UnknownCall)?;
    unless(refuses2(l, t, r), Refusal::NoTvm)?;
    unless(refuses3(l, t, r), Refusal::WrongPhase)?;
    unless(refuses4(l, t, r), Refusal::OutOfRange)?;
    let pages = sized(r);
    unless(refuses5(l, t, r, pages), Refusal::Address)?;
    from_6(l, t, r, pages)
}
