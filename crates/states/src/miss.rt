// Whether the mask of all tasks that may be released misses from a state.
ghost use Rattle.std.specs.Prelude.{◌≡◌};
ghost use Rattle.states.specs.Miss.{full_by};

use tasks::{Table, Ticker, misses};

// Whether the mask of all tasks that may be released misses from the state in the words. Where the state is proper and the ticker is the
// table's, some mask misses exactly where this one does, and then some job is tight before the tick. Most states have no tight job: a
// caller asks `tasks::tight` first, and leaves them without a tick.
pub fn full_misses(t: Table, ticker: Ticker, v: [u16; 8]) -> bool
    ensures { result ≡ full_by t ticker v }
{
    misses(t, ticker.after(ticker.prepare(v), ticker.free(v)))
}
