// The plan: its text read.
#![tactic(auto)]

mod text;

pub use text::{Plan, read_plan};
