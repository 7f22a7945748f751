// Worksites inside an authority: what is due for each gap between them, a line each in a lent buffer; and the kind, the
// officer's statement and the worksites read off a text.
#![tactic(auto)]

mod gaps;
mod lines;
mod list;
mod text;

pub use lines::write_gaps;
pub use text::{TEXT_SIZE, WorksiteList, read_list};
