// The search of a task table's states: slots in a lent work space, level by level, with its verdict.
#![tactic(auto)]

mod hunt;
mod index;
mod outcome;
mod run;
mod search;
mod store;

pub use run::Verdict;
pub use search::{search_sheet, search_table};
