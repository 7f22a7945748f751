// The track authority board: opening a board from a plan's text, and taking one call after another.
#![tactic(auto)]

mod entry;
mod taking;

pub use entry::{call, open};
pub use taking::take;
