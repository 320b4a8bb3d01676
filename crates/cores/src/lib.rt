// The choice of the running tasks: a walk that gives out the processors of a tick and carries their number.
#![tactic(auto)]

mod walk;

pub use walk::{assign, assign_quickly};
