// The numbers that sums of costs are kept in.
ghost use prog.Memory.{size};
ghost use denote.Param.{layout};
ghost use Rattle.std.proofs.Common.{rules};
ghost use Rattle.std.specs.Prelude.{◌≡◌, ℕ, ◌+◌, ◌≤◌, ◌<◌, min, leb};
ghost use Rattle.seam_sums.specs.Fences.{fence32, largest_word};

use crate::weights::Weight;

// A number of some kind: that of costs without marks, of weights with marks.
pub trait Number: Copy {
    // The number that it is.
    ghost value: { Self → ℕ };

    // A number that no sum is kept above.
    ghost fence: { ℕ };

    // What a sum that is more is kept as.
    ghost most: { ℕ };

    fn make_fence() -> Self
        ensures { value result ≡ fence };

    // What a row is made of that is written before it is read: the fence would be stored number by number, after the row was cleared.
    fn make_zero() -> Self
        ensures { value result ≡ 0 };

    fn lesser(self, other: Self) -> Self
        ensures { value result ≡ min (value self) (value other) };

    fn is_at_most(self, other: Self) -> bool
        ensures { result ≡ leb (value self) (value other) };

    // A sum or a fence, with a cost added. Of what is neither nothing is promised.
    fn plus(self, cost: Self) -> Self
        ensures { (value self ≤ fence) × (value cost < fence) → value result ≡ value self + value cost };

    // A sum as it is kept.
    fn capped(self) -> Self
        ensures { value result ≡ min most (value self) };

    // It takes at most eight bytes, so that a row of them fits into memory.
    ghost narrow: { size (layout Self.row) ≤ 8 };
}

// A cost or a sum of costs, which never reaches the fence.
impl Number for u32 {
    ghost value = { λ n. n };

    ghost fence = { fence32 };

    ghost most = { largest_word };

    fn make_fence() -> u32 {
        1 << 31
    }

    fn make_zero() -> u32 {
        0
    }

    fn lesser(self, other: u32) -> u32 {
        self.min(other)
    }

    fn is_at_most(self, other: u32) -> bool {
        self <= other
    }

    fn plus(self, cost: u32) -> u32 {
        self.wrapping_add(cost)
    }

    fn capped(self) -> u32 {
        self
    }

    ghost narrow = { Prim.search rules };
}

// A weight or a sum of weights, which stays at the fence.
impl Number for Weight {
    ghost value = { λ n. n.0 };

    ghost fence = { fence32 };

    ghost most = { fence32 };

    fn make_fence() -> Weight {
        Weight(1 << 31)
    }

    fn make_zero() -> Weight {
        Weight(0)
    }

    fn lesser(self, other: Weight) -> Weight {
        Weight(self.0.min(other.0))
    }

    fn is_at_most(self, other: Weight) -> bool {
        self.0 <= other.0
    }

    fn plus(self, cost: Weight) -> Weight {
        Weight(self.0.wrapping_add(cost.0))
    }

    fn capped(self) -> Weight {
        Weight(self.0.min(1 << 31))
    }

    ghost narrow = { Prim.search rules };
}
