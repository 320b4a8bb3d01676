// A list played from a state, with a number of ticks before it.
ghost use Rattle.std.specs.Prelude.{◌≡◌, ◌^◌, ◌<◌};
ghost use Rattle.tasks.specs.Replay.{played_from, outcome_tick};
ghost use Rattle.joined.specs.Raised.{raised_tick, raised_outcome};

use tasks::{Outcome, ReplayAnswer, Replayed, State, Table};

// A tick's number with the ticks before it; 0, which names no tick, stays.
fn raised_tick(before: u32, tick: usize) -> usize
    requires { tick < 2 ^ 63 }
    ensures { result ≡ raised_tick before tick }
{
    if tick == 0 {
        return 0;
    }
    (before as usize) + tick
}

// An outcome with its tick's number raised.
fn raised_outcome(before: u32, o: Outcome) -> Outcome
    requires { outcome_tick o < 2 ^ 63 }
    ensures { result ≡ raised_outcome before o }
{
    match o {
        Outcome::Kept => Outcome::Kept,
        Outcome::Missed(tick) => Outcome::Missed(raised_tick(before, tick)),
    }
}

// A list played from a state, for any table and state, after a number of ticks: 4 to 7, then 13, then as a replay from that state, with
// its tick numbers raised by the ticks before.
pub fn play_after(t: Table, s: State, before: u32, masks: &[u8]) -> Replayed
    ensures { result ≡ played_from t s before masks.now }
{
    let played = tasks::play_on(t, s, masks);
    let answer = match played.answer {
        ReplayAnswer::Refused(r, tick) => ReplayAnswer::Refused(r, raised_tick(before, tick)),
        ReplayAnswer::Played(o) => ReplayAnswer::Played(raised_outcome(before, o)),
    };
    Replayed {
        answer,
        state: played.state,
    }
}
