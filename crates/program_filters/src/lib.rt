// What the programs do, each a function from its input to its output.
#![tactic(auto, unfolding(pictures::specs::Pictures::pixel_bytes))]

pub mod fit_program;
pub mod programs;
pub mod seams_program;

pub use fit_program::fit;
pub use programs::{Filter, Ran, run};
pub use seams_program::seams;
