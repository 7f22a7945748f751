// What an accepted call does to the register.
#![tactic(auto)]

mod changes;
mod effect;
mod running;

pub use effect::effect_of;
