// The lines of a verdict, and the whole of the program `verdict` but its read and its write.
#![tactic(auto)]

mod decimal;
mod program;
mod text;

pub use program::judge;
pub use text::{Numbered, write_lines};
