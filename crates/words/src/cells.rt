// Single words.
ghost use Rattle.std.specs.Prelude.{◌≡◌, ◌+◌, ◌*◌, ◌^◌, ◌<◌};
ghost use Rattle.sets.specs.Terms.{put as store};
ghost use Rattle.rules.specs.Encoding.{Numbers, read, part, cell, upper};

use super::Words;

// The lent words are 426 numbers below 2^32; there are as many.
pub fn known(l: &Words) -> usize
    ensures { (result ≡ 426) × Numbers 426 (2 ^ 32) l.now }
{
    l.as_slice().len()
}

pub fn word(l: &Words, i: usize) -> u32
    requires { i < 426 }
    ensures { result ≡ read l.now i }
{
    l[i]
}

pub fn put(l: &mut Words, i: usize, v: u32)
    requires { i < 426 }
    ensures { read l.new ≡ store i v (read l.old) }
{
    l[i] = v;
}

// Word i of the run of n from `base` on, and 0 past its end. (The words are one lent array, as C has them, so a run in it is a place and a length.)
pub fn in_part(l: &Words, base: usize, n: u64, i: u64) -> u32
    requires { (base < 426) × (base + n < 427) }
    ensures { result ≡ part (read l.now) base n i }
{
    if i < n { word(l, base + i as usize) } else { 0 }
}

// Column i of row k, of rows that stand one after the other from `base` on, and 0 where there is none.
pub fn cell<const ROWS: usize, const COLUMNS: usize>(l: &Words, base: usize, k: u64, i: u64) -> u32
    requires { base + ROWS * COLUMNS < 427 }
    ensures { result ≡ cell (read l.now) base ROWS COLUMNS k i }
{
    let (rows, columns) = (ROWS as u64, COLUMNS as u64);
    if k < rows && i < columns {
        in_part(l, base, rows * columns, columns * k + i)
    } else {
        0
    }
}

// What stands above a fence in its word: the last byte, little endian.
pub fn upper(x: u32) -> u8
    ensures { result ≡ upper x }
{
    x.to_le_bytes()[3]
}
