// Cutting at a priority: the first k tasks of a table, and with them the cut of a state, of a mask and of a list.
#![tactic(auto)]

mod masks;
mod numbers;
mod tables;

pub use masks::{cut_list, cut_mask};
pub use tables::{cut_state, cut_table};
