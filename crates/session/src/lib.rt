// Sessions: whoever looks into a replay steps through it tick by tick, sets marks, and returns to them.
#![tactic(auto)]

mod calls;
mod marks;

pub use calls::{Call, Called, Stepped};
pub use marks::Session;
