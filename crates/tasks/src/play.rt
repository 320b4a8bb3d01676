// The replay of a release list, one mask a tick, from the start state, and the play of a list from any state.
ghost use Rattle.std.specs.Prelude.{◌≡◌, ◌≤◌, false, length};
ghost use Rattle.tasks.specs.State.{improper};
ghost use Rattle.tasks.specs.Replay.{played, replayed, played_from, replay_tick};

use crate::refusal::Refusal;
use crate::state::State;
use crate::table::Table;
use crate::valid::Valid;

// How a played list ended: kept, or missed at the tick of that number, the first being 1.
#[derive(Clone, Copy, Debug, PartialEq, Eq)]
pub enum Outcome {
    Kept,
    Missed(usize),
}

// Played, or refused: why, and the tick's number, which is 0 where the table or the state is refused. Document 01 names this form, so it
// is no Result.
#[derive(Clone, Copy, Debug, PartialEq, Eq)]
pub enum ReplayAnswer {
    Played(Outcome),
    Refused(Refusal, usize),
}

// The answer, and the state beside it: the last one, the one after the miss, or the one given to the refused tick.
#[derive(Clone, Copy, Debug, PartialEq, Eq)]
pub struct Replayed {
    pub answer: ReplayAnswer,
    pub state: State,
}

// The masks of a valid table played from a proper state, up to the first miss or refusal; later masks are not read. Every state on the way
// is proper, so of a tick's refusals only that of the mask is asked for.
fn play(valid: Valid, first: State, masks: &[u8]) -> Replayed
    requires { improper valid.table first ≡ false }
    ensures { result ≡ played valid.table first 0 masks.now }
{
    let t = valid.table;
    let mut s = first;
    for (i, &mask) in masks.iter().enumerate() {
        if s.illegal(t, mask) {
            return Replayed {
                answer: ReplayAnswer::Refused(Refusal::Mask, i + 1),
                state: s,
            };
        }
        let released = s.release(t, mask);
        let run = released.choose(t);
        let next = released.run(run);
        if next.missed(t) {
            return Replayed {
                answer: ReplayAnswer::Played(Outcome::Missed(i + 1)),
                state: next,
            };
        }
        s = next;
    }
    Replayed {
        answer: ReplayAnswer::Played(Outcome::Kept),
        state: s,
    }
}

// A list played on from a state, for any table and state: 4 to 7 and then 13 are refused before the first tick, with the state given. The
// first tick is 1.
pub fn play_on(t: Table, s: State, masks: &[u8]) -> Replayed
    ensures { (result ≡ played_from t s 0 masks.now) × (replay_tick result.answer ≤ length masks.now) }
{
    if let Err(why) = t.check() {
        return Replayed {
            answer: ReplayAnswer::Refused(why, 0),
            state: s,
        };
    }
    if s.improper(t) {
        return Replayed {
            answer: ReplayAnswer::Refused(Refusal::Improper, 0),
            state: s,
        };
    }
    play(Valid { table: t }, s, masks)
}

// The replay of a list, for any table: a bad table is refused before the first tick, with the start state.
pub fn replay(t: Table, masks: &[u8]) -> Replayed
    ensures { (result ≡ replayed t masks.now) × (replay_tick result.answer ≤ length masks.now) }
{
    let start = State::start();
    play_on(t, start, masks)
}
