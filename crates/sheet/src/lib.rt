// The shift sheet: a page of the live authorities for the outgoing supervisor to sign.
#![tactic(auto)]

mod page;
mod rows;

pub use page::{write_page, write_sheet};
