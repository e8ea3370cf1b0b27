// Rows of numbers of two bytes: read, compared, and judged by 9.
ghost use Rattle.std.specs.Prelude.{◌≡◌, ◌*◌, ◌%◌, ◌<◌, eqb, length, get_or};
ghost use Rattle.seam_theory.specs.Paths.{run};
ghost use Rattle.grids.specs.Rows.{rows_of};
ghost use Rattle.map_theory.specs.Judged.{every, same, numbers};
ghost use Rattle.pictures.specs.Numbers.{numbers_in};
ghost use Rattle.map_check.specs.Inner.Numbers.{RowNeeded};

use crate::recorded::RecordedMap;
use pictures::LARGEST_SIDE;
use pictures::numbers::number;

// Whether the numbers in two parts are the same: their bytes are.
pub(crate) fn has_same_numbers(a: &[u8], b: &[u8]) -> bool
    requires long { length a.now ≡ length b.now }
    requires whole { length a.now % 2 ≡ 0 }
    ensures { result ≡ same (numbers_in a.now) (numbers_in b.now) }
{
    a == b
}

// The numbers of a row, each in 16 bits.
pub(crate) fn read_numbers(row: &[u8], numbers: &mut [u16])
    requires { length row.now ≡ 2 * length numbers.old }
    ensures { numbers.new ≡ numbers_in row.now }
{
    for (c, v) in numbers.iter_mut().enumerate() {
        *v = number(row[2 * c], row[2 * c + 1]);
    }
}

// Whether a row holds each of 1 to the depth once, and nothing above it.
fn is_numbering(row: &[u8], depth: usize) -> bool
    requires { RowNeeded row.now depth }
    ensures { result ≡ numbers depth (numbers_in row.now) }
{
    let mut seen = [0u16; LARGEST_SIDE];
    for pair in row.chunks_exact(2) {
        let v = number(pair[0], pair[1]) as usize;
        if depth < v {
            return false;
        }
        seen[v] += 1;
    }
    has_each_once(&seen, depth)
}

// Whether each of 1 to the depth was counted once.
fn has_each_once(seen: &[u16], depth: usize) -> bool
    requires { depth < length seen.now }
    ensures { result ≡ every (λ v. eqb (get_or seen.now v 0) 1) (run 1 depth) }
{
    seen[1..depth + 1]
        .iter()
        .all(|count| map_rules::stands_once(*count))
}

impl RecordedMap<'_> {
    // Whether each row of the map holds each of 1 to the depth once and nothing above it.
    pub(crate) fn is_numbered(&self) -> bool
        ensures { result ≡ every (numbers self.now.depth) (rows_of self.now.width self.now.height (numbers_in self.now.bytes.now)) }
    {
        self.bytes
            .chunks_exact(2 * self.width)
            .all(|row| is_numbering(row, self.depth))
    }
}
