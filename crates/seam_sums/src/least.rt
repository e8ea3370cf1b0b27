// The least of sums, at any width of number.
ghost use Rattle.std.specs.Prelude.{◌≡◌, ◌-◌, map, length};
ghost use Rattle.seam_theory.specs.Sums.{first_of3, least_to};

use crate::numbers::Number;

// Which of three is the least, the first of equals: 0, 1 or 2. A number and no kind: it is added to a column, and a byte for each
// pixel of the lent space holds it.
pub fn way<N: Number>(left: N, middle: N, right: N) -> u8
    ensures { result ≡ first_of3 (N.value left) (N.value middle) (N.value right) }
{
    if left.is_at_most(middle.lesser(right)) {
        0
    } else if middle.is_at_most(right) {
        1
    } else {
        2
    }
}

// The first column of the least sum; 0 where there is none. `min_by` would be told an order made of `is_at_most`, and keep the
// column beside the sum all the same: no plainer.
pub fn first_least<N: Number>(sums: &[N]) -> usize
    ensures { result ≡ least_to (map N.value sums.now) (length sums.now - 1) }
{
    let mut best = 0;
    for (k, sum) in sums.iter().enumerate() {
        let is_less = !sums[best].is_at_most(*sum);
        if is_less {
            best = k;
        }
    }
    best
}
