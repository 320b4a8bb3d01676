// The states of a table: as a transition system, as sixteen bytes and as keys; their legal masks in order, and whether one of them misses.
// For the layers above: it takes any table and any words, and refuses nothing; of bytes it reads those that the caller shows to be there.
#![tactic(auto)]

mod column;
mod keys;
mod masks;
mod miss;
mod ticking;
mod words;

pub use column::{four_at, key_in, words_in};
pub use keys::{Key, key_of, mix, same_keys};
pub use masks::{Masks, follow, masks_of};
pub use miss::full_misses;
pub use ticking::Ticking;
