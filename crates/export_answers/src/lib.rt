// What hosts in C and Rust name by numbers, and what they are answered, as pure functions.
#![tactic(auto)]

pub mod answers;
pub mod files;
pub mod names;
pub mod objects;

pub use answers::{Answer, judge_row};
pub use files::{FileAnswer, SizeAnswer};
pub use names::{
    Carving, Counts, HostMethod, HostSize, Seaming, axis_named, carving_named, counts_named,
    head_named, seaming_named,
};
pub use objects::Ended;
