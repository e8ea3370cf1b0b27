// Numbers in bytes, of two bytes or of four.
ghost use Rattle.std.specs.Prelude.{◌≡◌, ◌+◌, ◌*◌, ◌<◌, length, get_or, set};
ghost use Rattle.pictures.specs.Numbers.{numbers_in};
ghost use Rattle.seam_find_kept.specs.Inner.Kept.{words_in};

use pictures::numbers::number;

// The number at c of a row of them.
pub(crate) fn pair_at(row: &[u8], c: usize) -> u16
    requires { 2 * c + 1 < length row.now }
    ensures { result ≡ get_or (numbers_in row.now) c 0 }
{
    number(row[2 * c], row[2 * c + 1])
}

pub(crate) fn put_pair(row: &mut [u8], c: usize, n: u16)
    requires { 2 * c + 1 < length row.old }
    ensures { numbers_in row.new ≡ set (numbers_in row.old) c n }
{
    row[2 * c] = (n % 256) as u8;
    row[2 * c + 1] = (n / 256) as u8;
}

pub(crate) fn word_at(row: &[u8], c: usize) -> u32
    requires { 4 * c + 3 < length row.now }
    ensures { result ≡ get_or (words_in row.now) c 0 }
{
    let a = u32::from(row[4 * c]);
    let b = u32::from(row[4 * c + 1]);
    let d = u32::from(row[4 * c + 2]);
    let e = u32::from(row[4 * c + 3]);
    a + 256 * (b + 256 * (d + 256 * e))
}

pub(crate) fn put_word(row: &mut [u8], c: usize, n: u32)
    requires { 4 * c + 3 < length row.old }
    ensures { words_in row.new ≡ set (words_in row.old) c n }
{
    row[4 * c] = (n % 256) as u8;
    row[4 * c + 1] = (n / 256 % 256) as u8;
    row[4 * c + 2] = (n / 256 / 256 % 256) as u8;
    row[4 * c + 3] = (n / 256 / 256 / 256) as u8;
}
