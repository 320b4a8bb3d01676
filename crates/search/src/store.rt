// Storing the successors of a level's slots, each state once. Each function answers how many slots are filled then, or none where there is
// no room for a new state.
ghost use Rattle.std.specs.Prelude.{◌≡◌, ◌≤◌, ◌<◌};
ghost use Rattle.tasks.specs.Words.{state_of};
ghost use Rattle.tasks.specs.Ticker.{ticked_by};
ghost use Rattle.slots.specs.Running.{Marked};
ghost use Rattle.search.specs.Indexed.{Indexed};
ghost use Rattle.search.specs.Keeping.{Level, Attempted, RowReady, RowIs, BlockReady, BlockIs, LevelIs};

use crate::index::{holds, push};
use slots::{block_upto, end_slot};
use states::{Ticking, masks_of, words_in};
use tasks::{Prepared, Ticker};

// Stores what the state of slot i leads to under a mask, where it is new; n slots are filled before.
fn try_mask(
    ticker: Ticker,
    work: &mut [u8],
    heads: &mut [u32],
    state: Prepared,
    k: usize,
    n: usize,
    i: usize,
    mask: u8,
) -> Option<usize>
    requires { Indexed k work.old heads.old n }
    ensures { Attempted k work.old work.new heads.old heads.new n (state_of (ticked_by ticker state mask)) i mask result }
{
    let next = ticker.after(state, mask);
    if holds(work, heads, k, n, next) {
        return Some(n);
    }
    if n == k {
        return None;
    }
    push(work, heads, k, n, next, i, mask);
    Some(n + 1)
}

// Stores the successors of slot i under its legal masks that are new; `from` slots are filled before.
fn store_row(
    ticking: Ticking,
    work: &mut [u8],
    heads: &mut [u32],
    k: usize,
    from: usize,
    i: usize,
) -> Option<usize>
    requires { RowReady ticking.table k work.old heads.old from i }
    ensures { RowIs ticking.table k work.old work.new heads.new from i result }
{
    let ticker = ticking.ticker;
    let v = words_in(work, i);
    let state = ticker.prepare(v);
    let mut n = from;
    for mask in masks_of(ticker.free(v)) {
        n = try_mask(ticker, work, heads, state, k, n, i, mask)?;
    }
    Some(n)
}

// Stores the successors of the slots from lo to hi - 1, all of one block, that are new; `from` slots are filled before.
fn store_block(
    ticking: Ticking,
    work: &mut [u8],
    heads: &mut [u32],
    k: usize,
    from: usize,
    lo: usize,
    hi: usize,
) -> Option<usize>
    requires { BlockReady ticking.table k work.old heads.old from lo hi }
    ensures { BlockIs ticking.table k work.old work.new heads.new from lo hi result }
{
    let mut n = from;
    for i in lo..hi {
        n = store_row(ticking, work, heads, k, n, i)?;
    }
    Some(n)
}

// Stores the successors of the slots from lo to hi - 1 that are new, block by block: the loop over slots then asks for nothing but their
// masks (docs/DECISIONS.md, "The last pass apart, and storing by blocks").
pub(crate) fn store_level(
    ticking: Ticking,
    work: &mut [u8],
    heads: &mut [u32],
    ends: &mut [u32],
    k: usize,
    lo: usize,
    hi: usize,
) -> Option<usize>
    requires { (lo ≤ hi) × Level ticking.table work.old hi × Indexed k work.old heads.old hi × Marked ends.old lo hi }
    ensures { LevelIs ticking.table k ends.old ends.new work.old work.new heads.new lo hi result }
{
    let mut n = hi;
    let mut i = lo;
    while i < hi {
        let to = block_upto(i, hi);
        n = store_block(ticking, work, heads, k, n, i, to)?;
        end_slot(ends, to - 1, n);
        i = to;
    }
    Some(n)
}
