// The three columns of a work space, laid out for all its slots, in which a search leaves those that it writes:
// states of 16 bytes, parents of 4, low byte first, and masks of 1.
use crate::tick;
use tasks::{State, Step, Table};

// The columns of a work space.
#[derive(Clone, Copy)]
pub struct Columns<'a> {
    states: &'a [[u8; 16]],
    parents: &'a [[u8; 4]],
    masks: &'a [u8],
}

// A slot.
#[derive(Clone, Copy)]
struct Slot {
    state: [u8; 16],
    parent: usize,
    mask: u8,
}

// The hash of the 16 bytes of a state (FNV-1a).
fn hash(state: &[u8; 16]) -> u32 {
    state.iter().fold(2166136261, |hash, byte| {
        (hash ^ u32::from(*byte)).wrapping_mul(16777619)
    })
}

// Whether the tick of one state under a mask gives another.
fn leads(t: Table, from: State, mask: u8, to: State) -> bool {
    let ticked = from.tick(t, mask);
    ticked.answer == Ok(Step::Next) && ticked.state == to
}

impl<'a> Columns<'a> {
    // The columns of a space that is as long as they are, or up to 20 bytes longer.
    pub fn of(work: &'a [u8]) -> Self {
        let k = work.len() / 21;
        let (states, rest) = work.split_at(16 * k);
        let (parents, rest) = rest.split_at(4 * k);
        let (masks, _) = rest.split_at(k);
        Columns {
            states: states.as_chunks().0,
            parents: parents.as_chunks().0,
            masks,
        }
    }

    // The states of the first n slots, and of all where there are fewer.
    pub fn first(&self, n: usize) -> &'a [[u8; 16]] {
        self.states.get(..n).unwrap_or(self.states)
    }

    // The sum of the hashes of these states, modulo 2^32: the same for any order of them.
    pub fn digest(&self, n: usize) -> u32 {
        self.first(n).iter().map(hash).fold(0, u32::wrapping_add)
    }

    // The slot at a place.
    fn slot(&self, i: usize) -> Option<Slot> {
        Some(Slot {
            state: *self.states.get(i)?,
            parent: u32::from_le_bytes(*self.parents.get(i)?) as usize,
            mask: *self.masks.get(i)?,
        })
    }

    // Whether an earlier slot has the state of slot i.
    fn is_twice(&self, i: usize, slot: Slot) -> bool {
        self.states.iter().take(i).any(|state| *state == slot.state)
    }

    // Whether slot 0 is the start state with parent 0 and mask 0, and any other slot has an earlier one as
    // its parent, whose tick under the mask gives its state.
    fn is_led_to(&self, t: Table, i: usize, slot: Slot) -> bool {
        let state = tick::of_bytes(slot.state);
        if i == 0 {
            return slot.parent == 0 && slot.mask == 0 && state == State::start();
        }
        self.states
            .iter()
            .take(i)
            .nth(slot.parent)
            .is_some_and(|from| leads(t, tick::of_bytes(*from), slot.mask, state))
    }

    // How many of the first n slots have the state of an earlier one, or a parent or a mask that does not lead
    // to theirs; of all where there are fewer.
    pub fn wrong(&self, t: Table, n: usize) -> usize {
        (0..n)
            .map_while(|i| Some((i, self.slot(i)?)))
            .filter(|&(i, slot)| self.is_twice(i, slot) || !self.is_led_to(t, i, slot))
            .count()
    }
}
