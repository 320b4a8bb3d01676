// The C call that replays a release list.
ghost use Rattle.std.specs.Prelude.{◌≡◌, ◌<◌};
ghost use Rattle.tasks.specs.Replay.{replay_tick};
ghost use Rattle.ronchhek.specs.Replays.{outcome_of, replay_number, answer_tick, call_number, call_space};

use tasks::{Outcome, Refusal, ReplayAnswer};

// The units of a refusal's number and of a kind.
const NUMBER: u64 = 1 << 48;

const KIND: u64 = 1 << 56;

// A list of so many ticks has no room in an answer.
pub(crate) const TICKS: usize = 1 << 48;

// Why a list was not played, and the number of the tick that was refused, or 0.
#[derive(Clone, Copy, Debug, PartialEq, Eq)]
pub(crate) struct RefusedAt {
    pub why: Refusal,
    pub tick: usize,
}

impl From<Refusal> for RefusedAt {
    ghost from_gives = { λ why e. e ≡ record { why = why; tick = 0 } };

    fn from(why: Refusal) -> RefusedAt {
        RefusedAt { why, tick: 0 }
    }
}

// How a list was played, or why it was not.
pub(crate) fn outcome_of(answer: ReplayAnswer) -> Result<Outcome, RefusedAt>
    ensures { (result ≡ outcome_of answer) × (answer_tick result ≡ replay_tick answer) }
{
    match answer {
        ReplayAnswer::Played(outcome) => Ok(outcome),
        ReplayAnswer::Refused(why, tick) => Err(RefusedAt { why, tick }),
    }
}

// The number of an answer.
pub(crate) fn replay_number(answer: Result<Outcome, RefusedAt>) -> u64
    requires { answer_tick answer < 281474976710656 }
    ensures { result ≡ replay_number answer }
{
    match answer {
        Ok(Outcome::Kept) => KIND,
        Ok(Outcome::Missed(tick)) => 2 * KIND + tick as u64,
        Err(RefusedAt { why, tick }) => u64::from(why.number()) * NUMBER + tick as u64,
    }
}

// Replays a list with a sheet's table, and writes the state that a played list ends with.
fn replay_sheet(sheet: &[u8], list: &[u8], state: &mut [u8]) -> Result<Outcome, RefusedAt>
    ensures number { replay_number result ≡ call_number 16 sheet.now list.now state.old }
    ensures few { answer_tick result < 281474976710656 }
    ensures space { state.new ≡ call_space sheet.now list.now state.old }
{
    let table = tasks::read_sheet(sheet)?;
    if TICKS <= list.len() {
        return Err(Refusal::ShortOutput.into());
    }
    let played = tasks::replay(table, list);
    let outcome = outcome_of(played.answer)?;
    slots::write_state(played.state, state)?;
    Ok(outcome)
}

// The replay of a sheet's table.
#[unsafe(no_mangle)]
pub extern "C" fn ronchhek_replay(sheet: &[u8], list: &[u8], state: &mut [u8]) -> u64
    ensures { (result ≡ call_number 16 sheet.now list.now state.old) × (state.new ≡ call_space sheet.now list.now state.old) }
{
    replay_number(replay_sheet(sheet, list, state))
}
