//! The machine that runs the code of a program: one step, the steps one after another, and the machine itself.
#![tactic(auto)]

mod first;
mod looking;
mod machine;
mod printing;
mod reading;
mod running;
mod showing;
mod step;
mod stop;

pub use machine::Machine;
pub use ss_input::{Missed, Source};
pub use stop::Stop;
