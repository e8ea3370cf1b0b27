// What the operations on seams decide before they touch a buffer, as pure functions of numbers, and the forms of their
// answers.
#![tactic(auto, unfolding(pictures::specs::Pictures::pixel_bytes))]

pub mod answers;
pub mod axes;
pub mod counts;
pub mod cuts;
pub mod endings;

pub use answers::{Axis, Columns, Ending, Removal, Rows};
pub use axes::{grey, narrower, turned_size};
pub use counts::{LARGEST_COUNT, judge_retarget, smaller, smaller_total};
pub use cuts::{allows_mark, judge_close_along, judge_find, judge_marks, takes_last};
pub use endings::next_step;
