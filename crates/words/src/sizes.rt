// The sizes, and the ledger as open leaves it.
ghost use Rattle.std.specs.Prelude.{◌≡◌, ◌≤◌, ◌<◌, replicate};
ghost use Rattle.rules.specs.Ledger.{opened};
ghost use Rattle.rules.specs.Encoding.{view};

use super::cells::{put, upper, word};
use super::{SIZE, Words};

pub fn harts(l: &Words) -> u8
    ensures { result ≡ (view l.now).harts }
{
    upper(word(l, 0))
}

pub fn pages(l: &Words) -> u32
    ensures { result ≡ (view l.now).pages }
{
    word(l, 1)
}

fn clear(l: &mut Words)
    ensures { l.new ≡ replicate 426 0 }
{
    *l = [0u32; SIZE];
}

pub fn open(l: &mut Words, harts: u8, pages: u32)
    ensures { view l.new ≡ opened harts pages }
{
    clear(&mut *l);
    put(&mut *l, 0, u32::from_le_bytes([0, 0, 0, harts]));
    put(l, 1, pages);
}
