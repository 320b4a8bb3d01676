// The lower layer of the verdict engine: the task table and its faults, the sheet, the state, one tick, and the replay of a list.
#![tactic(auto)]

mod copies;
mod number;
mod places;
mod play;
mod refusal;
mod sheet;
mod slack;
mod state;
mod table;
mod tick;
mod ticker;
mod valid;
mod words;
mod writer;

// The public calls: each gives a result within the limits or a listed refusal. `State::tick` is one of them.
pub use copies::{copy_sheet, copy_table};
pub use number::read_number;
pub use play::{Outcome, ReplayAnswer, Replayed, play_on, replay};
pub use refusal::Refusal;
pub use sheet::{Task, read_sheet};
pub use state::State;
pub use table::Table;
pub use tick::{Step, Ticked};
pub use writer::write_sheet;

// The inner interface, for the layers above: it takes any table, state and words, and refuses nothing. `Table::ticker`, `Table::empty`,
// `Table::with_task`, `State::words`, `State::of_words` and the steps of a tick (`State::illegal`, `release`, `choose`, `run` and `missed`)
// are of it.
pub use slack::tight;
pub use state::has_bit;
pub use table::outside;
pub use ticker::{Prepared, Ticker};
pub use valid::Valid;
pub use words::{gap_in, misses, work_in};
