// Practice tables: a table that anyone can make again from policy, m, n and a number of 16 bits.
#![tactic(auto)]

mod draws;
mod made;

pub use made::practice_table;
