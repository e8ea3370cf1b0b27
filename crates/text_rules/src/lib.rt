// What reading and printing a multi-size file decide without looking at its text.
#![tactic(auto)]

pub mod names;

ghost use Rattle.std.specs.Prelude.{◌≡◌, ◌&&◌, eqb};
ghost use Rattle.text_rules.specs.Items.{items_of};

pub use names::{all_names, kind_name, kind_named, letters_of, rule_name, rule_named};
use pictures::Kind;

// What the items of a form are: words, or forms of words. The form of a line stands in the form of the file, so forms are
// nested at most three deep.
#[derive(Clone, Copy, Debug, PartialEq, Eq)]
pub enum Items {
    Samples,
    Pixels,
    Numbers,
}

// The items of a row line.
pub fn items_of(kind: Kind) -> Items
    ensures { result ≡ items_of kind }
{
    match kind {
        Kind::Grey => Items::Samples,
        Kind::Rgb => Items::Pixels,
    }
}

// Whether row lines and map lines are all full. This and the next stand apart from the reading, as the project asks of decisions.
pub fn are_full(rows: bool, maps: bool) -> bool
    ensures { result ≡ rows && maps }
{
    rows && maps
}

// Whether all lines are still full, with one more of `count` items.
pub fn stays_full(full: bool, count: usize, width: usize) -> bool
    ensures { result ≡ full && eqb count width }
{
    full && count == width
}
