// Multi-size files: checked, read, and shown at the widths that they offer.
#![tactic(auto, unfolding(pictures::specs::Pictures::pixel_bytes))]

pub mod checking;
mod lines;
mod opening;
pub mod reading;
pub mod widths;

pub use checking::check;
pub use reading::read;
pub use widths::show;
