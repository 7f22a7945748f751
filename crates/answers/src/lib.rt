// A call's own answer on the register: accepted, or the lowest refusal from 5 on whose condition holds.
#![tactic(auto)]

mod agreements;
mod answer;
mod bookings;
mod conditions;
mod terms;

pub use answer::answer_of;
