// Joined lists: a list played from the state where another one was kept, with the ticks before it.
#![tactic(auto)]

mod after;

pub use after::play_after;
