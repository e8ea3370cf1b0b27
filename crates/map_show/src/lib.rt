// A row of a picture and its row of the map, shown at a width.
#![tactic(auto, unfolding(pictures::specs::Pictures::pixel_bytes))]

mod pixels;
pub mod rows;

ghost use Rattle.map_show.specs.Showing.{RowAtGiven};

use pictures::{Kind, Refusal};
pub use rows::pixels_at;

// A row of pixels and its row of the map, shown at the wanted width, at the front of out. The row has as many pixels as the
// map has numbers; it may be of any length, and any width may be wanted. `wrap` says whether the last column is joined to the first.
// Refused by 4 where the samples aren't as many as the numbers say, and by 8 where out is shorter than what is shown.
pub fn row_at(
    kind: Kind,
    wrap: bool,
    samples: &[u8],
    numbers: &[u16],
    wanted: usize,
    out: &mut [u8],
) -> Result<(), Refusal>
    ensures { RowAtGiven kind wrap samples.now numbers.now wanted out.old result out.new }
{
    if !map_rules::has_pixels(kind, samples.len(), numbers.len()) {
        return Err(Refusal::Count);
    }
    if !map_rules::holds_pixels(kind, out.len(), pixels_at(numbers, wanted)) {
        return Err(Refusal::Space);
    }
    rows::show(kind, wrap, samples, numbers, wanted, out);
    Ok(())
}
