// How long a call's range is, as the call says it.
ghost use Rattle.std.specs.Prelude.{◌≡◌};
ghost use Rattle.door.specs.Extents.{extent_of};

use super::request::Request;
use rules::Role;

// "Type is 0 (4 KiB) or 1 (2 MiB)". A host may give any other number.
#[derive(Clone, Copy)]
pub enum Unit {
    Page = 0,
    Large = 1,
}

// A length in bytes, a count of units of a type, or one page.
#[derive(Clone, Copy)]
pub enum Extent {
    Bytes(u64),
    Units { count: u64, kind: u64 },
    OnePage,
}

impl Request {
    pub fn extent(&self) -> Extent
        ensures { result ≡ extent_of self.now }
    {
        if self.names(Role::ByteLength) {
            return Extent::Bytes(self.arg(Role::ByteLength));
        }
        if self.names(Role::UnitCount) {
            let count = self.arg(Role::UnitCount);
            let kind = self.arg(Role::UnitType);
            return Extent::Units { count, kind };
        }
        Extent::OnePage
    }
}
