// Where the core time of a replay went: for each task its releases, the ticks in which it ran, and the work left.
#![tactic(auto)]

mod bytes;
mod play;
mod totals;

pub use bytes::write_totals;
pub use play::service;
pub use totals::{Account, Totals};
