// What is told to the operations on seams besides a picture, and what they answer.

// The direction of a seam: one column for each row, or one row for each column.
#[derive(Clone, Copy, Debug, PartialEq, Eq)]
pub enum Axis {
    Vertical,
    Horizontal,
}

// The four endings of a removal.
#[derive(Clone, Copy, Debug, PartialEq, Eq)]
pub enum Ending {
    // no pixel is marked 2
    Done,
    // width 1
    Narrow,
    // as many seams cut as allowed
    Spent,
    // every seam meets a protected pixel
    Blocked,
}

// How a removal ended, with the count of seams cut.
#[derive(Clone, Copy, Debug, PartialEq, Eq)]
pub struct Removal {
    pub ending: Ending,
    pub count: u16,
}

// A count of rows, and a count of columns: never one for the other.
#[derive(Clone, Copy, Debug, PartialEq, Eq)]
pub struct Rows(pub usize);

#[derive(Clone, Copy, Debug, PartialEq, Eq)]
pub struct Columns(pub usize);
