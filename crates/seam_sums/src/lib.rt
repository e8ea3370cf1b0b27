// What finding a seam decides on single numbers, as total functions: which of the sums above a column is the least, where the
// least sum of a row stands, what a pixel weighs by its mark, and what the least weight means.
#![tactic(auto)]

pub mod least;
pub mod numbers;
pub mod weights;

pub use least::{first_least, way};
pub use numbers::Number;
pub use weights::{Weight, found_by, pixel_weight};
