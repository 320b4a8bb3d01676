// The slots of a work space in columns: read and written, as the paper has them and as they stand while a search runs.
// For the layers above: it reads and writes the bytes that the caller shows to be there. `write_state` refuses a space that is too short.
#![tactic(auto)]

mod read;
mod running;
mod write;

pub use read::{link_of, mask_of, parent_of};
pub use running::{block_upto, end_slot, settle, word_of};
pub use write::{put_slot, write_state};
