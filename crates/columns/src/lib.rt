// Numbers in fixed columns of text, right-justified behind blanks: columns and lines of them written, rows of them
// read, and the cells of a page, a number, one behind a minus sign or nothing.
#![tactic(auto)]

mod cells;
mod reading;
mod write;

pub use cells::{Cell, difference, fill_cell};
pub use reading::{is_line_feed, read_column, read_row};
pub use write::write_line;
