// A state in eight words, one a task: c + 256 p.
ghost use Rattle.std.specs.Prelude.{◌≡◌, ◌/◌, ◌%◌};
ghost use Rattle.tasks.specs.Tick.{missed};
ghost use Rattle.tasks.specs.Words.{words_of, state_of};

use crate::state::State;
use crate::table::Table;
use std::array;

// The work left in a word.
pub fn work_in(w: u16) -> u8
    ensures { result ≡ w % 256 }
{
    (w % 256) as u8
}

// The ticks until the next release in a word.
pub fn gap_in(w: u16) -> u8
    ensures { result ≡ w / 256 }
{
    (w / 256) as u8
}

impl State {
    // The state in words.
    pub fn words(self) -> [u16; 8]
        ensures { result ≡ words_of self }
    {
        array::from_fn(|i| u16::from(self.c[i]) + 256 * u16::from(self.p[i]))
    }

    // The state of eight words.
    pub fn of_words(v: [u16; 8]) -> State
        ensures { result ≡ state_of v }
    {
        State {
            c: array::from_fn(|i| work_in(v[i])),
            p: array::from_fn(|i| gap_in(v[i])),
        }
    }
}

// Step 5 of a tick on words: whether some job is late.
pub fn misses(t: Table, v: [u16; 8]) -> bool
    ensures { result ≡ missed t (state_of v) }
{
    lists::any_place(|i| jobs::late_job(t.deadline[i], t.gap[i], gap_in(v[i]), work_in(v[i])))
}
