// A text of calls: a line of it read, a piece of it run on a board, and its journal.
#![tactic(auto)]

mod journal;
mod lines;
mod piece;

pub use lines::read_line;
pub use piece::{AfterRun, run};
