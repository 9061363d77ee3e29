// One record: eight bytes, little endian.
ghost use Rattle.std.specs.Prelude.{◌≡◌, ◌+◌, ◌*◌, ◌≤◌, length};
ghost use Rattle.rules.specs.Encoding.{pages_of};
ghost use Rattle.records.specs.Passes.{put_page};

use rules::Page;
use rules::numbers::Kind;

// A free page's record. "Fields that a kind does not use are 0 when written."
pub const FREE: Page = Page {
    kind: Kind::Free as u8,
    slot: 0,
    version: 0,
    guest: 0,
};

pub fn read(t: &[u8], i: usize) -> Page
    requires { 8 * i + 8 ≤ length t.now }
    ensures { result ≡ (pages_of t.now).page i }
{
    let a = 8 * i;
    Page {
        kind: t[a],
        slot: t[a + 1],
        version: u16::from_le_bytes([t[a + 2], t[a + 3]]),
        guest: u32::from_le_bytes([t[a + 4], t[a + 5], t[a + 6], t[a + 7]]),
    }
}

pub fn write(t: &mut [u8], i: usize, p: Page)
    requires { 8 * i + 8 ≤ length t.old }
    ensures { pages_of t.new ≡ put_page i p (pages_of t.old) }
{
    let a = 8 * i;
    t[a] = p.kind;
    t[a + 1] = p.slot;
    t[a + 2..a + 4].copy_from_slice(&p.version.to_le_bytes());
    t[a + 4..a + 8].copy_from_slice(&p.guest.to_le_bytes());
}
