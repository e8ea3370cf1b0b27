// What object removal does next.
ghost use Rattle.std.specs.Prelude.{◌≡◌};
ghost use Rattle.seam_rules.specs.Endings.{next_step};

use crate::answers::{Ending, Removal};

// What comes before a cut, with `count` seams cut of at most `budget`: it ends where no pixel is marked 2 any more, where one
// column is left, or where the budget is spent, in this order. None where a seam is to be cut. It is told whether a
// pixel is marked, and not the marks: a decision is a function without slices.
pub fn next_step(marked: bool, width: usize, count: u16, budget: u16) -> Option<Removal>
    ensures { result ≡ next_step marked width count budget }
{
    let ending = if !marked {
        Ending::Done
    } else if width == 1 {
        Ending::Narrow
    } else if count == budget {
        Ending::Spent
    } else {
        return None;
    };
    Some(Removal { ending, count })
}
