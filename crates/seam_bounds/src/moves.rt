// What the operations that move a picture's bytes decide before they touch one: which number refuses them, whether a column of
// a seam is outside the picture, and whether two places of a space are apart.
ghost use Rattle.std.specs.Prelude.{◌≡◌, ◌+◌, leb};
ghost use Rattle.pictures.specs.Refusals.{given, refusal};
ghost use Rattle.seam_bounds.specs.Moves.{exchange_rules, column_rules, close_length_rules, close_column_rules, outside as Moves·outside, apart_in};

use pictures::{Refusal, Size, judge_picture, pixel_bytes};

// Whether a picture may be put with rows and columns exchanged into a space of `space` bytes. Refused by 2, 3 and 4 as every
// picture is, and by 8 where the space is shorter than the picture.
pub fn judge_exchange(size: Size, bytes: usize, space: usize) -> Result<(), Refusal>
    ensures { given result ≡ refusal (exchange_rules size bytes space) }
{
    judge_picture(size, bytes)?;
    if space < bytes {
        return Err(Refusal::Space);
    }
    Ok(())
}

// Whether a column of a picture may be put into a space of `space` bytes. Refused by 2, 3 and 4 as every picture is, by 8
// where the space is shorter than the column, and by 10 where the column is outside the picture.
pub fn judge_column(size: Size, bytes: usize, column: usize, space: usize) -> Result<(), Refusal>
    ensures { given result ≡ refusal (column_rules size bytes column space) }
{
    judge_picture(size, bytes)?;
    if space < size.height * pixel_bytes(size.kind) {
        return Err(Refusal::Space);
    }
    if size.width <= column {
        return Err(Refusal::BrokenSeam);
    }
    Ok(())
}

// Whether a seam of `columns` columns may be read for a picture. Refused by 2, 3 and 4 as every picture is, and by 4 where
// the seam hasn't one column for each row.
pub fn judge_close_lengths(size: Size, bytes: usize, columns: usize) -> Result<(), Refusal>
    ensures { given result ≡ refusal (close_length_rules size bytes columns) }
{
    judge_picture(size, bytes)?;
    if columns != size.height {
        return Err(Refusal::Count);
    }
    Ok(())
}

// Whether a seam may be closed up in a picture of this width. Refused by 10 where one of its columns is outside the picture,
// which `beyond` says, and by 13 at the last column. Not told the seam, so that what refuses is judged from numbers alone.
pub fn judge_close_columns(width: usize, beyond: bool) -> Result<(), Refusal>
    ensures { given result ≡ refusal (close_column_rules width beyond) }
{
    if beyond {
        return Err(Refusal::BrokenSeam);
    }
    if width == 1 {
        return Err(Refusal::LastLine);
    }
    Ok(())
}

// Whether a column of a seam isn't below the width.
fn is_outside(width: usize, column: u16) -> bool
    ensures { result ≡ leb width column }
{
    width <= column as usize
}

// Whether some column of a seam isn't below the width.
pub fn has_outside(seam: &[u16], width: usize) -> bool
    ensures { result ≡ Moves·outside width seam.now }
{
    seam.iter().any(|column| is_outside(width, *column))
}

// Whether `count` bytes at `at` lie inside a space.
fn lies_within(space: usize, at: usize, count: usize) -> bool
    ensures { result ≡ leb (at + count) space }
{
    at <= space && count <= space - at
}

// Whether `count` bytes at `from` and `count` bytes at `to` lie inside a space and don't overlap.
pub fn lie_apart(space: usize, from: usize, to: usize, count: usize) -> bool
    ensures { result ≡ apart_in space from to count }
{
    lies_within(space, from, count)
        && lies_within(space, to, count)
        && (lies_within(to, from, count) || lies_within(from, to, count))
}
