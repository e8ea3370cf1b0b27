// What the operations on files decide before they touch a buffer, as pure functions of numbers.
#![tactic(auto)]

pub mod counts;
pub mod spaces;

pub use counts::counts_agree;
pub use spaces::{judge_build, judge_read_spaces, judge_wanted, judge_work};
