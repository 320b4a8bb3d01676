// The hunt through a level's slots and their legal masks, which stops on its first miss.
ghost use Rattle.std.specs.Prelude.{◌≡◌, ◌≤◌};
ghost use Rattle.states.specs.Miss.{miss_by};
ghost use Rattle.search.specs.Keeping.{Level, HuntIs};

use states::{Ticking, full_misses, masks_of, words_in};
use tasks::{Table, Ticker, misses, tight};

// Whether some mask misses from the state in the words, where it is proper.
fn has_miss(t: Table, ticker: Ticker, v: [u16; 8]) -> bool
    ensures { result ≡ miss_by t ticker v }
{
    tight(t, v) && full_misses(t, ticker, v)
}

// Tries the slots of the level for a miss, and of a slot that has one the legal masks in increasing order. Answers that slot and the first
// mask that misses from it.
pub(crate) fn hunt(ticking: Ticking, work: &[u8], lo: usize, hi: usize) -> Option<(usize, u8)>
    requires { (lo ≤ hi) × Level ticking.table work.now hi }
    ensures { HuntIs ticking.table work.now lo hi result }
{
    let Ticking { table, ticker } = ticking;
    'hunt: {
        for i in lo..hi {
            let v = words_in(work, i);
            if has_miss(table, ticker, v) {
                let state = ticker.prepare(v);
                for mask in masks_of(ticker.free(v)) {
                    if misses(table, ticker.after(state, mask)) {
                        break 'hunt Some((i, mask));
                    }
                }
            }
        }
        None
    }
}
