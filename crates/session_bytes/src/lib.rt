// Sessions in 145 bytes, which whoever calls keeps: read, called with a sheet's table, and written again.
#![tactic(auto)]

mod calls;
mod read;
mod write;

pub use calls::call_sheet;
