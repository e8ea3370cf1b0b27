// Whether places, columns and lengths lie within bounds: what moving a picture's bytes and finding a seam in a space decide
// before they touch a buffer.
#![tactic(auto)]

pub mod finding;
pub mod moves;

pub use finding::{judge_find_in, judge_find_marked_in};
pub use moves::{
    has_outside, judge_close_columns, judge_close_lengths, judge_column, judge_exchange, lie_apart,
};
