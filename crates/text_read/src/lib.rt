// The text of a multi-size file, read.
#![tactic(auto)]

pub mod cursor;
pub mod forms;
pub mod heads;
pub mod known;
pub mod lines;
pub mod words;

pub use cursor::{Class, Cursor, class_of};
pub use words::Word;
