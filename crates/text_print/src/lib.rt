// The text of a multi-size file, printed: each text is said once, for any sink, and written into a lent space where there is room
// for it.
#![tactic(auto)]

pub mod lines;
pub mod printing;
pub mod texts;

pub use lines::{MapLine, RowLine};
pub use printing::{Out, left_after, print};
pub use texts::{Each, Mark, Text};
