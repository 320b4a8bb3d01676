// A closed list as evidence of Safe: whether a file of states is closed under the ticks of a table. It knows nothing of the search that
// may have made the file.
#![tactic(auto)]

mod cells;
mod check;
mod file;
mod passes;
mod pending;
mod sound;
mod split;

pub use check::{closed_sheet, closed_table};
