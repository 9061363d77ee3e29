// Refusal 11: a guest page that is mapped already.
ghost use Rattle.std.specs.Prelude.{◌≡◌};
ghost use Rattle.rules.specs.Refusals as n;
ghost use Rattle.rules.specs.Encoding.{view, pages_of};
ghost use Rattle.door.specs.Ready.{Ready};

use door::request::Request;
use records::table;
use rules::Role;
use words::{Words, sizes};

pub fn refuses11(l: &Words, t: &[u8], r: &Request, pages: u64) -> bool
    requires { Ready l.now t.now r.now pages }
    ensures { result ≡ n.refuses11 (view l.now) (pages_of t.now) r.now }
{
    if r.names(Role::UnitType) {
        let tvm = r.arg(Role::Tvm);
        let first = r.arg(Role::GuestBase) / 4096;
        let total = sizes::pages(l);
        return table::any_claimed(t, total as usize, tvm as u8, first as u32, pages as u32);
    }
    false
}
