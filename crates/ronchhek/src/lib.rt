// The calls for C, thin over `tasks`, `service`, `practice`, `cut`, `session_bytes`, `search` and `closed`: a sheet's verdict, its
// evidence, the replay of a list and its totals, a sheet's table as bytes, practice sheets, the sheets of cut tables, and sessions.
#![tactic(auto)]

mod cuts;
mod files;
mod practices;
mod replays;
mod services;
mod sessions;
mod tables;
mod verdicts;

pub use cuts::ronchhek_cut;
pub use files::ronchhek_closed;
pub use practices::ronchhek_practice;
pub use replays::ronchhek_replay;
pub use services::ronchhek_service;
pub use sessions::{ronchhek_session_mark, ronchhek_session_return, ronchhek_session_step};
pub use tables::{ronchhek_read, ronchhek_write};
pub use verdicts::ronchhek_verdict;
