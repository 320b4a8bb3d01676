// Many ticks in one call, for the comparison of speed with a native tick (bench/README.md). No part of the engine.
#![tactic(auto)]

ghost use Rattle.std.specs.Prelude.{◌≡◌, ◌+◌, ◌*◌, ◌≤◌, length};
ghost use Rattle.ticks.specs.Ticks.{bytes_from, table_of, state_in, word, figure, pairs, ticks_sum};
ghost use Rattle.tasks.specs.Ticker.{prepared_by, ticked_by};
ghost use Rattle.tasks.specs.Words.{words_of, state_of};

use std::array;
use tasks::{State, Table, Ticker};

// Eight bytes as one number, low byte first.
fn word(a: [u8; 8]) -> u64
    ensures { result ≡ word a }
{
    u64::from_le_bytes(a)
}

// Eight bytes from a place on.
fn bytes_from(b: &[u8], at: usize) -> [u8; 8]
    requires { at + 8 ≤ length b.now }
    ensures { result ≡ bytes_from b.now at }
{
    array::from_fn(|i| b[at + i])
}

// The table in the first 27 bytes.
fn table_of(b: &[u8]) -> Table
    requires { 27 ≤ length b.now }
    ensures { result ≡ table_of b.now }
{
    Table {
        policy: b[0],
        m: b[1],
        n: b[2],
        work: bytes_from(b, 3),
        deadline: bytes_from(b, 11),
        gap: bytes_from(b, 19),
    }
}

// State k of those in the bytes.
fn state_at(b: &[u8], k: usize) -> State
    requires { 16 * k + 16 ≤ length b.now }
    ensures { result ≡ state_in b.now k }
{
    let at = 16 * k;
    State {
        c: bytes_from(b, at),
        p: bytes_from(b, at + 8),
    }
}

// The words after a tick, by a table made ready.
fn ticked(ticker: Ticker, s: State, mask: u8) -> [u16; 8]
    ensures { result ≡ ticked_by ticker (prepared_by ticker (words_of s)) mask }
{
    let ready = ticker.prepare(s.words());
    ticker.after(ready, mask)
}

// A state in words and whether it is missed, as one number.
fn figure(t: Table, v: [u16; 8]) -> u64
    ensures { result ≡ figure t (state_of v) }
{
    let s = State::of_words(v);
    word(s.c)
        .wrapping_add(word(s.p))
        .wrapping_add(tasks::misses(t, v) as u64)
}

// How many ticks there are.
fn pairs(states: &[u8], masks: &[u8]) -> usize
    ensures { result ≡ pairs states.now masks.now }
{
    (states.len() / 16).min(masks.len())
}

// A tick for each mask and each state of 16 bytes: the figures of the states after them, added up. The table is made ready once. The first
// tick stands before the loop: a function with two callers is kept out of line, so the table made ready stays in memory and its eight
// numbers are read at once, as in the search.
#[unsafe(no_mangle)]
pub extern "C" fn ticks(table: &[u8], states: &[u8], masks: &[u8]) -> u64
    ensures { result ≡ ticks_sum table.now states.now masks.now }
{
    if table.len() < 27 {
        return 0;
    }
    let t = table_of(table);
    let ticker = t.ticker();
    let n = pairs(states, masks);
    if n == 0 {
        return 0;
    }
    let first = ticked(ticker, state_at(states, 0), masks[0]);
    let mut sum = figure(t, first);
    for k in 1..n {
        let after = ticked(ticker, state_at(states, k), masks[k]);
        sum = sum.wrapping_add(figure(t, after));
    }
    sum
}
