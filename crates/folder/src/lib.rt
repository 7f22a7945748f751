// The files of a working folder: the board opened from `plan`, the calls of `calls` run on it, and the journal or the
// shift sheet printed; or what is due for the worksites of `worksites`. What goes wrong outside documents 01 and 02 is
// a `Failure`: it is said on standard error, with the file's name, and ends the run with the exit status 1; standard
// output stays theirs.
#![tactic(auto)]

mod failure;
mod gaps;
mod input;
mod journal;
mod open_board;
mod opening;
mod output;
mod page;
mod piece;
mod pieces;

pub use failure::{Failure, end_run};
pub use gaps::print_gaps;
pub use input::{Filled, read_file};
pub use journal::print_journal;
pub use open_board::Board;
pub use opening::{Names, PLAN_SIZE};
pub use output::print;
pub use page::{print_page, print_sheet};
