// Which depth and growth are allowed, and what a number of the map says of its pixel at a width.
ghost use Rattle.std.specs.Prelude.{◌≡◌};
ghost use Rattle.map_theory.specs.Widths.{allowed as Widths·allowed, stays as Widths·stays, doubled as Widths·doubled, middle};

// Whether a depth and a growth are allowed at this width. By numbers: the head of a file holds all three, but maps stand
// below files.
#[tactic(auto, unfolding(map_theory::specs::Widths::allowed))]
pub fn is_allowed(width: usize, depth: usize, growth: usize) -> bool
    ensures { result ≡ Widths·allowed width depth growth }
{
    depth < width && growth <= depth && growth <= width / 2
}

// Whether a pixel of this number is shown with t columns less.
#[tactic(auto, unfolding(map_theory::specs::Widths::stays))]
pub fn stays(t: usize, number: usize) -> bool
    ensures { result ≡ Widths·stays t number }
{
    number == 0 || t < number
}

// Whether a new pixel is shown for a pixel of this number with u columns more.
#[tactic(auto, unfolding(map_theory::specs::Widths::doubled))]
pub fn is_doubled(u: usize, number: usize) -> bool
    ensures { result ≡ Widths·doubled u number }
{
    1 <= number && number <= u
}

// The mean of two samples, as new pixels have it.
#[tactic(auto, unfolding(map_theory::specs::Widths::middle))]
pub fn mean(a: u8, b: u8) -> u8
    ensures { result ≡ middle a b }
{
    a.midpoint(b)
}
