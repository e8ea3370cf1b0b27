// What sums are kept in.
ghost use Rattle.std.specs.Prelude.{◌≡◌, ℕ, ◌+◌, ◌*◌, ◌≤◌, ◌<◌, List, min, leb, ltb, length, get_or, set};
ghost use Rattle.pictures.specs.Limits.{most_side};
ghost use Rattle.pictures.specs.Numbers.{numbers_in, largest_number};
ghost use Rattle.seam_sums.specs.Fences.{fence32};
ghost use Rattle.seam_find_kept.specs.Inner.Kept.{words_in, SumLaws};
ghost use Rattle.seam_sums.specs.Fences.{largest_word};

use crate::words::{pair_at, put_pair, put_word, word_at};

// Numbers of a few bytes each, the low byte first. A sum that is larger than the largest of them is kept as that one.
pub(crate) trait Sum: Copy {
    // The number that it is.
    ghost value: { Self → ℕ };

    // How many bytes it takes, and the numbers that stand in bytes.
    ghost bytes: { ℕ };

    ghost held: { List ℕ → List ℕ };

    // The largest of them.
    ghost most: { ℕ };

    // The bytes of one, and of so many; and what holds of them.
    fn bytes() -> usize
        ensures one { result ≡ bytes }
        ensures laws { SumLaws bytes most held };

    fn row_bytes(count: usize) -> usize
        requires { count ≤ most_side + 2 }
        ensures all { result ≡ count * bytes }
        ensures laws { SumLaws bytes most held };

    // The one at c of a row of them.
    fn at(row: &[u8], c: usize) -> Self
        requires { c < length (held row.now) }
        ensures { value result ≡ get_or (held row.now) c 0 };

    fn put(self, row: &mut [u8], c: usize)
        requires { c < length (held row.old) }
        ensures { held row.new ≡ set (held row.old) c (value self) };

    fn from_cost(cost: u16) -> Self
        ensures { value result ≡ cost };

    // A fence, which no sum exceeds.
    fn make_fence() -> Self
        ensures { value result ≡ min most fence32 };

    fn plus(self, cost: u16) -> Self
        requires { value self ≤ fence32 }
        ensures { value result ≡ min most (value self + cost) };

    fn lesser(self, other: Self) -> Self
        ensures { value result ≡ min (value self) (value other) };

    fn is_less(self, other: Self) -> bool
        ensures { result ≡ ltb (value self) (value other) };

    // Whether it is the largest, so that the sum may be more.
    fn is_most(self) -> bool
        ensures { result ≡ leb most (value self) };

    fn number(self) -> u32
        ensures { result ≡ value self };
}

impl Sum for u16 {
    ghost value = { λ n. n };

    ghost bytes = { 2 };

    ghost held = { numbers_in };

    ghost most = { largest_number };

    fn bytes() -> usize {
        2
    }

    fn row_bytes(count: usize) -> usize {
        2 * count
    }

    fn at(row: &[u8], c: usize) -> u16 {
        pair_at(row, c)
    }

    fn put(self, row: &mut [u8], c: usize) {
        put_pair(row, c, self);
    }

    fn from_cost(cost: u16) -> u16 {
        cost
    }

    fn make_fence() -> u16 {
        u16::MAX
    }

    fn plus(self, cost: u16) -> u16 {
        self.saturating_add(cost)
    }

    fn lesser(self, other: u16) -> u16 {
        self.min(other)
    }

    fn is_less(self, other: u16) -> bool {
        self < other
    }

    fn is_most(self) -> bool {
        self == u16::MAX
    }

    fn number(self) -> u32 {
        u32::from(self)
    }
}

impl Sum for u32 {
    ghost value = { λ n. n };

    ghost bytes = { 4 };

    ghost held = { words_in };

    ghost most = { largest_word };

    fn bytes() -> usize {
        4
    }

    fn row_bytes(count: usize) -> usize {
        4 * count
    }

    fn at(row: &[u8], c: usize) -> u32 {
        word_at(row, c)
    }

    fn put(self, row: &mut [u8], c: usize) {
        put_word(row, c, self);
    }

    fn from_cost(cost: u16) -> u32 {
        u32::from(cost)
    }

    fn make_fence() -> u32 {
        1 << 31
    }

    // No sum and no fence with a cost added is more than the largest.
    fn plus(self, cost: u16) -> u32 {
        self + u32::from(cost)
    }

    fn lesser(self, other: u32) -> u32 {
        self.min(other)
    }

    fn is_less(self, other: u32) -> bool {
        self < other
    }

    fn is_most(self) -> bool {
        self == u32::MAX
    }

    fn number(self) -> u32 {
        self
    }
}
