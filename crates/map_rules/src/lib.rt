// What the operations on maps decide, as pure functions of numbers.
#![tactic(auto, unfolding(pictures::specs::Pictures::pixel_bytes))]

pub mod allowed;
pub mod recorded;
pub mod spaces;
pub mod widths;

pub use recorded::{is_beside, remains, stands_once};
pub use spaces::{has_pixels, holds_pixels, judge_map_space, map_at, recorded_at};
pub use widths::{is_allowed, is_doubled, mean, stays};
