// The way back from the last row to the first.
ghost use Rattle.std.specs.Prelude.{◌≡◌, ◌≤◌, ◌<◌};
ghost use Rattle.pictures.specs.Limits.{most_side};
ghost use Rattle.seam_theory.specs.Sums.{came_from};
ghost use Rattle.seam_find.specs.Tracing.{traceable, traced};

use pictures::LARGEST_SIDE;

// The columns of the path to `column` of the last row, put into the front of seam from the top row. Row i of ways says
// where each column of row i + 1 comes from. Where there is no such path the seam is left as it was: a public
// function that couldn't fail still can't.
pub fn trace_back(ways: &[u8], width: usize, height: usize, column: usize, seam: &mut [u16])
    ensures { seam.new ≡ traced ways.now width height column seam.old }
{
    if !judge_trace(ways.len(), width, height, column, seam.len()) {
        return;
    }
    let mut c = column;
    // by index: which place of a row is read is known only from the row below it
    for i in (0..height - 1).rev() {
        seam[i + 1] = c as u16;
        c = step(width, c, ways[i * width + c]);
    }
    seam[0] = c as u16;
}

// Whether `ways` ways lead from `column` of the last of `height` rows to the first, and a space of `seam` columns is as long
// as the path.
#[tactic(auto, unfolding(crate::specs::Tracing::traceable))]
fn judge_trace(ways: usize, width: usize, height: usize, column: usize, seam: usize) -> bool
    ensures { result ≡ traceable ways width height column seam }
{
    1 <= height
        && height <= LARGEST_SIDE
        && width <= LARGEST_SIDE
        && column < width
        && height <= seam
        && ways == (height - 1) * width
}

// The column of the row above to which a way leads, the left one, the middle one or the right one by 0, 1 or 2; past an edge, the
// column at the other edge. A number, since a byte of the lent space holds it, which may be any byte.
fn step(width: usize, column: usize, way: u8) -> usize
    requires { (width ≤ most_side) × (column < width) }
    ensures { result ≡ came_from width column way }
{
    let right = column + way as usize;
    if right == 0 {
        width - 1
    } else if width < right {
        0
    } else {
        right - 1
    }
}
