// Pictures moved in lent buffers: with rows and columns exchanged, the whole picture or one column, from one buffer to another
// or from one place of a space to another.
#![tactic(auto)]

pub mod between;
mod columns;

ghost use Rattle.seam_moves.specs.Moving.{ExchangeGiven, ColumnGiven};

pub use between::{copy_between, exchange_between};
use pictures::{Refusal, Size};
use seam_bounds::{judge_column, judge_exchange};

// The picture with rows and columns exchanged, put into the front of `to`: its width is the height, its height the width.
// Refused by 2, 3 and 4 as every picture is, and by 8 where `to` is shorter than the picture.
pub fn exchange(from: &[u8], size: Size, to: &mut [u8]) -> Result<(), Refusal>
    ensures { ExchangeGiven from.now size to.old result to.new }
{
    judge_exchange(size, from.len(), to.len())?;
    columns::exchange_pixels(from, size, to);
    Ok(())
}

// The pixels of column c from the top, put into the front of `out`. Refused by 2, 3 and 4 as every picture is, by 8 where
// `out` is shorter than the column, and by 10 where the column is outside the picture.
pub fn copy_column(from: &[u8], size: Size, c: usize, out: &mut [u8]) -> Result<(), Refusal>
    ensures { ColumnGiven from.now size c out.old result out.new }
{
    judge_column(size, from.len(), c, out.len())?;
    columns::put_pixels(from, size, c, out);
    Ok(())
}
