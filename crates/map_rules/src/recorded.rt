// What a recorded map is judged by: how often a number stands in a row, which pixels are left, which columns are connected.
ghost use Rattle.std.specs.Prelude.{◌≡◌, eqb};
ghost use Rattle.seam_theory.specs.Paths.{beside as Paths·beside};
ghost use Rattle.map_theory.specs.Judged.{remains as Judged·remains};

// Whether a number that was counted this often stands once: one comparison, and a function since decisions stand apart from what
// searches a row.
pub fn stands_once(count: u16) -> bool
    ensures { result ≡ eqb count 1 }
{
    count == 1
}

// Whether a pixel numbered v is left before seam t. Not `stays`: t is a seam here, whose own pixel is still left, and a count of
// columns there.
#[tactic(auto, unfolding(map_theory::specs::Judged::remains))]
pub fn remains(t: usize, v: usize) -> bool
    ensures { result ≡ Judged·remains t v }
{
    v == 0 || t <= v
}

// Whether two columns differ by at most 1.
#[tactic(auto, unfolding(seam_theory::specs::Paths::beside))]
pub fn is_beside(c: usize, d: usize) -> bool
    ensures { result ≡ Paths·beside c d }
{
    c.abs_diff(d) <= 1
}
