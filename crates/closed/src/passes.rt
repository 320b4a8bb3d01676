// The pairs of a state and a mask, shared out among passes, so that the states that a pass looks up fit the cells. A tick takes every
// task but those it releases one tick nearer to its next release. So the pairs are split by how far one task is from it after the
// tick: the states of the file that are as far go into the cells, and most states are left without a tick. Where these are still too many,
// a hash of the state after the tick tells classes apart. Nothing rests on this: every pair is looked up in one of the passes.
ghost use Rattle.std.specs.Prelude.{◌≡◌, ◌+◌, ◌-◌, ◌*◌, ◌<◌, ◌≤◌, min, false, ◌&&◌, eqb, ltb, leb, length, get_or};
ghost use Rattle.std.specs.Int.Bits.{bit_and};
ghost use Rattle.lists.specs.Lists.{pick};
ghost use Rattle.tasks.specs.State.{improper};
ghost use Rattle.tasks.specs.Ticker.{ticked_by};
ghost use Rattle.tasks.specs.Words.{state_of};
ghost use Rattle.states.specs.Bytes.{state_in};
ghost use Rattle.closed.specs.Keeping.{class_of, landing, Due, RowOf, Between, Every, InsideIs, Given, Ready, AfterWaits, RowWaits};

use crate::cells::put;
use crate::file::File;
use crate::pending::all_held;
use crate::split::{Pass, Split};
use states::{Key, Ticking, key_in, key_of, masks_of, mix, words_in};
use tasks::{Prepared, Ticker};

// How far the task is from its next release after a tick that releases it or not, at most top.
fn landing(top: usize, gap: u8, released: bool) -> usize
    ensures { result ≡ landing top gap released }
{
    if gap == 0 {
        return if released { top } else { 0 };
    }
    usize::from(gap - 1).min(top)
}

// Whether a distance is from low to high - 1.
fn between(low: usize, high: usize, at: usize) -> bool
    ensures { result ≡ (leb low at && ltb at high) }
{
    (low..high).contains(&at)
}

// How far the task is from its next release in state i, at most top.
fn distance(file: File, split: Split, i: usize) -> usize
    requires { i < file.n }
    ensures { result ≡ min (get_or file.entry.bytes.now (16 * i + 2 * split.task + 1) 0) split.top }
{
    usize::from(file.gap_at(i, split.task)).min(split.top)
}

// The class of a key, of so many. One class needs no hash.
fn class_of(key: Key, classes: usize) -> usize
    requires { 0 < classes }
    ensures { result ≡ class_of classes key }
{
    if classes == 1 {
        return 0;
    }
    let x = mix(key);
    (x / 4294967296 + x % 4294967296) / 262144 % classes
}

// Whether a mask is due: as its bit for the task says, a tick that keeps the task's job or one that releases a new one.
fn is_due(bit: u8, kept: bool, released: bool, mask: u8) -> bool
    ensures { result ≡ pick (eqb (bit_and mask bit) 0) kept released }
{
    if mask & bit == 0 { kept } else { released }
}

// Puts the key of the state after a mask behind the keys that wait, where it is due and of the pass's class. How many wait then.
fn put_after(
    ticker: Ticker,
    pending: &mut [Key],
    count: usize,
    pass: Pass,
    state: Prepared,
    due: bool,
    mask: u8,
) -> usize
    requires { count < length pending.old }
    ensures { (result ≤ count + 1) × AfterWaits pass due (state_of (ticked_by ticker state mask)) pending.old count pending.new result }
{
    if !due {
        return count;
    }
    let key = key_of(ticker.after(state, mask));
    if class_of(key, pass.classes) == pass.class {
        pending[count] = key;
        return count + 1;
    }
    count
}

// Puts the keys of the states after the masks of state i that are due in the pass behind those that wait. How many wait then.
fn row_pending(
    ticking: Ticking,
    file: File,
    pending: &mut [Key],
    count: usize,
    split: Split,
    pass: Pass,
    i: usize,
) -> usize
    requires { Given ticking.table file.bytes.now file.n × (i < file.n) × (improper ticking.table (state_in file.bytes.now i) ≡ false) × (count + 256 ≤ length pending.old) }
    ensures { (result ≤ count + 256) × RowWaits ticking.table file.entry.bytes.now file.entry.n (RowOf ticking.table file.entry.bytes.now split pass i) pending.old count pending.new result }
{
    let ticker = ticking.ticker;
    let v = words_in(file.bytes, i);
    let gap = file.gap_at(i, split.task);
    let kept = between(pass.low, pass.high, landing(split.top, gap, false));
    let released = between(pass.low, pass.high, landing(split.top, gap, true));
    if !(kept | released) {
        return count;
    }
    let state = ticker.prepare(v);
    let mut c = count;
    for mask in masks_of(ticker.free(v)) {
        let due = is_due(split.bit, kept, released, mask);
        c = put_after(ticker, pending, c, pass, state, due, mask);
    }
    c
}

// Whether the states after the masks of every state that are due in the pass are in the file. Their keys wait until there are many: looked
// up one right after the other, they wait for memory together. With the lookup in a loop of its own a check took 1.18 times as long.
fn rows_inside(ticking: Ticking, file: File, cells: &[u32], split: Split, pass: Pass) -> bool
    requires { Ready ticking.table file.bytes.now cells.now file.n }
    ensures { InsideIs ticking.table file.entry.bytes.now (Due ticking.table file.entry.bytes.now split pass) result }
{
    let mut pending = [key_of([0; 8]); 320];
    let mut count: usize = 0;
    for row in 0..file.n {
        count = row_pending(ticking, file, &mut pending, count, split, pass, row);
        if (64 <= count) | (row + 1 == file.n) {
            if !all_held(file, cells, &pending, count) {
                return false;
            }
            count = 0;
        }
    }
    true
}

// Puts state i into the cells, where the pass may look it up.
fn put_due(file: File, cells: &mut [u32], split: Split, pass: Pass, i: usize)
    requires { (256 < length cells.old) × (i < file.n) }
    ensures { length cells.new ≡ length cells.old }
{
    if between(pass.low, pass.high, distance(file, split, i)) {
        let key = key_in(file.bytes, i);
        if class_of(key, pass.classes) == pass.class {
            put(file, cells, key, i);
        }
    }
}

// Fills the cells for a pass.
fn index_pass(file: File, cells: &mut [u32], split: Split, pass: Pass)
    requires { 256 < length cells.old }
    ensures { length cells.new ≡ length cells.old }
{
    cells.fill(0);
    for i in 0..file.n {
        put_due(file, cells, split, pass, i);
    }
}

// How many of the file's states are so far from the task's next release.
fn count_between(file: File, split: Split, low: usize, high: usize) -> usize
    ensures { result ≤ file.entry.n }
{
    let mut count: usize = 0;
    for i in 0..file.n {
        count += usize::from(between(low, high, distance(file, split, i)));
    }
    count
}

// The passes of the states so far from the task's next release, one a class.
fn band_inside(
    ticking: Ticking,
    file: File,
    cells: &mut [u32],
    split: Split,
    low: usize,
    high: usize,
) -> bool
    requires { Ready ticking.table file.bytes.now cells.old file.n }
    ensures { (length cells.new ≡ length cells.old) × InsideIs ticking.table file.entry.bytes.now (Between file.entry.bytes.now split low high) result }
{
    let classes = count_between(file, split, low, high) / 229376 + 1;
    for class in 0..classes {
        let pass = Pass {
            low,
            high,
            classes,
            class,
        };
        index_pass(file, cells, split, pass);
        if !rows_inside(ticking, file, cells, split, pass) {
            return false;
        }
    }
    true
}

// How many steps of distance go into one band, of the top + 1, for n states: so many that its states fill three quarters of the cells.
fn width(top: usize, n: usize) -> usize
    requires { top < 256 }
    ensures { (0 < result) × (result ≤ 50331648) }
{
    if n <= 196608 {
        return top + 1;
    }
    let share = (top + 1) * 196608 / n;
    if 0 < share { share } else { 1 }
}

// Whether every legal mask of every state leads to a state of the file.
pub(crate) fn all_inside(ticking: Ticking, file: File, cells: &mut [u32], split: Split) -> bool
    requires { Ready ticking.table file.bytes.now cells.old file.n }
    ensures { InsideIs ticking.table file.entry.bytes.now Every result }
{
    let step = width(split.top, file.n);
    for band in 0..split.top / step + 1 {
        let low = band * step;
        if !band_inside(ticking, file, cells, split, low, low + step) {
            return false;
        }
    }
    true
}
