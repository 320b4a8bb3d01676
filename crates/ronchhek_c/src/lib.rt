// The calls of include/ronchhek.h, under their C names: each calls the function of `ronchhek` of its name, and promises what that one
// promises. `tools/build ronchhek` makes target/staticlib/libronchhek.a of this crate. The calls stand twice, since a crate is a library or
// a static library, and the programs call the library.
#![tactic(auto)]

mod cuts;
mod files;
mod practices;
mod replays;
mod services;
mod sessions;
mod tables;
mod verdicts;

pub use cuts::ronchhek_cut;
pub use files::ronchhek_closed;
pub use practices::ronchhek_practice;
pub use replays::ronchhek_replay;
pub use services::ronchhek_service;
pub use sessions::{ronchhek_session_mark, ronchhek_session_return, ronchhek_session_step};
pub use tables::{ronchhek_read, ronchhek_write};
pub use verdicts::ronchhek_verdict;
