// What the programs read and write: Netpbm pictures, and refusals.
#![tactic(auto)]

pub mod netpbm;
pub mod output;

pub use netpbm::{PictureText, last_number, print_picture, read_header};
pub use output::{OUTPUT_SPACE, RefusalLine, finish};
