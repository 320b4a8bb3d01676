// Lists of eight, counts and searches over the numbers below n, and tests: definitions in specs/, laws in proofs/, and two searches over
// the places of a table, by any test.
#![tactic(auto)]

mod places;

pub use places::{any_place, count_places};
