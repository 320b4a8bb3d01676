// Many ticks with one table, on states in words.
ghost use Rattle.std.specs.Prelude.{◌≡◌, ◌-◌, get_or, ltb};
ghost use Rattle.lists.specs.Lists.{eight, pick};
ghost use Rattle.tasks.specs.Ticker.{ready_in, keeps_in, place_in, places_in, kept_at, base_at, ticker_of, old_word, prepared_by, selected, lowered, ticked_by, free_by};

use crate::state::State;
use crate::table::Table;
use std::array;

// A table made ready for many ticks. For each task: its bit in a mask; the work below which its job keeps its processor; its place but
// for what its two numbers add to it; 255 where the policy goes by the ticks until the release, and 255 where it goes by the work left; its
// place and its word in a tick that releases it; and the limit below which its word says that it may be released. Then m.
#[derive(Clone, Copy, Debug, PartialEq, Eq)]
pub struct Ticker {
    bits: [u16; 8],
    kept: [u16; 8],
    base: [u16; 8],
    bygap: [u16; 8],
    bywork: [u16; 8],
    newplace: [u16; 8],
    newword: [u16; 8],
    limit: [u16; 8],
    m: u16,
}

// A state made ready for many ticks: for each task its place and its word in a tick that does not release it.
#[derive(Clone, Copy, Debug, PartialEq, Eq)]
pub struct Prepared {
    place: [u16; 8],
    word: [u16; 8],
}

// Whether the task of the word has a job with work left.
fn ready_in(w: u16) -> bool
    ensures { result ≡ ready_in w }
{
    0 < w % 256
}

// Whether the job of the word, if there is one, keeps its processor: it has less work left than `kept`.
fn keeps_in(kept: u16, w: u16) -> bool
    ensures { result ≡ keeps_in kept w }
{
    w % 256 < kept
}

// The place of the task of the word.
fn place_in(bygap: u16, bywork: u16, kept: u16, base: u16, w: u16) -> u16
    ensures { result ≡ place_in bygap bywork kept base w }
{
    let place = jobs::moved(bygap, bywork, base, w);
    if ready_in(w) {
        if keeps_in(kept, w) { 0 } else { place }
    } else {
        65535
    }
}

fn old_word(w: u16) -> u16
    ensures { result ≡ old_word w }
{
    w % 256 + 256 * (w / 256).saturating_sub(1)
}

fn old_words(v: [u16; 8]) -> [u16; 8]
    ensures { result ≡ eight (λ i. old_word (get_or v i 0)) }
{
    array::from_fn(|i| old_word(v[i]))
}

// The words with those of the tasks that run lowered.
fn lowered(places: [u16; 8], words: [u16; 8], m: u16) -> [u16; 8]
    ensures { result ≡ lowered places words m }
{
    let run = cores::assign_quickly(places, m);
    array::from_fn(|i| words[i].saturating_sub(run[i]))
}

// The places of the tasks of eight words. The hint keeps them in the tick, as the compiler would not with two callers.
#[inline]
fn places(
    bygap: [u16; 8],
    bywork: [u16; 8],
    kept: [u16; 8],
    base: [u16; 8],
    v: [u16; 8],
) -> [u16; 8]
    ensures { result ≡ places_in bygap bywork kept base v }
{
    array::from_fn(|i| place_in(bygap[i], bywork[i], kept[i], base[i], v[i]))
}

impl Ticker {
    // A state made ready.
    pub fn prepare(self, v: [u16; 8]) -> Prepared
        ensures { result ≡ prepared_by self v }
    {
        Prepared {
            place: places(self.bygap, self.bywork, self.kept, self.base, v),
            word: old_words(v),
        }
    }

    // For each task the old number where the mask does not release it, else the new one.
    fn selected(self, mask: u16, old: [u16; 8], new: [u16; 8]) -> [u16; 8]
        ensures { result ≡ eight (selected self.bits mask old new) }
    {
        array::from_fn(|i| if mask & self.bits[i] == 0 {
            old[i]
        } else {
            new[i]
        })
    }

    // The words after a tick of a state made ready: release, choose, run.
    pub fn after(self, state: Prepared, mask: u8) -> [u16; 8]
        ensures { result ≡ ticked_by self state mask }
    {
        let m = u16::from(mask);
        let places = self.selected(m, state.place, self.newplace);
        let words = self.selected(m, state.word, self.newword);
        lowered(places, words, self.m)
    }

    // The mask of all tasks that may be released. As a loop over the tasks it takes the compiler a few vector instructions.
    pub fn free(self, v: [u16; 8]) -> u8
        ensures { result ≡ free_by self v }
    {
        let mut mask: u16 = 0;
        let mut bit: u16 = 1;
        for i in 0..8 {
            mask += if v[i] < self.limit[i] { bit } else { 0 };
            bit *= 2;
        }
        mask as u8
    }
}

fn kept(t: Table) -> [u16; 8]
    ensures { result ≡ eight (kept_at t) }
{
    let stays = jobs::keeps_running(t.policy);
    array::from_fn(|i| if stays { u16::from(t.work[i]) } else { 0 })
}

fn bases(t: Table) -> [u16; 8]
    ensures { result ≡ eight (base_at t) }
{
    array::from_fn(|i| jobs::base_of(t.policy, t.deadline[i], t.gap[i]))
}

fn limits(t: Table) -> [u16; 8]
    ensures { result ≡ eight (λ i. pick (ltb i t.n) 256 0) }
{
    let n = usize::from(t.n);
    array::from_fn(|i| if i < n { 256 } else { 0 })
}

impl Table {
    // The table made ready.
    pub fn ticker(self) -> Ticker
        ensures { result ≡ ticker_of self }
    {
        let fresh = State::start().release(self, 255);
        let idle = fresh.run([false; 8]);
        let kept = kept(self);
        let base = bases(self);
        let bygap = [jobs::gap_mask(self.policy); 8];
        let bywork = [jobs::work_mask(self.policy); 8];
        Ticker {
            bits: [1, 2, 4, 8, 16, 32, 64, 128],
            kept,
            base,
            bygap,
            bywork,
            newplace: places(bygap, bywork, kept, base, fresh.words()),
            newword: idle.words(),
            limit: limits(self),
            m: u16::from(self.m),
        }
    }
}
