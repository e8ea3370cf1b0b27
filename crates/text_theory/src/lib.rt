// The text of a multi-size file: its definitions (specs/) and their laws (proofs/). The code that reads it is in `text_read`, the
// code that prints it in `text_print`.
#![tactic(auto)]

use energy::Method;
use pictures::Size;

// The words of a file that are no numbers: those that begin lines, those that name a kind, and those that name an energy rule.
#[derive(Clone, Copy, Debug, PartialEq, Eq)]
pub enum Name {
    Multi,
    Size,
    Range,
    Energy,
    Row,
    Map,
    Grey,
    Rgb,
    Edge,
    Flat,
    Forward,
}

// What the lines of size, range and energy say. The method is the one by which the seams of the map are found.
#[derive(Clone, Copy, Debug, PartialEq, Eq)]
pub struct Head {
    pub size: Size,
    pub method: Method,
    pub depth: usize,
    pub growth: usize,
}
