// The choice of the running tasks, by one number a task, its place: the smaller goes first.
ghost use Rattle.std.specs.Prelude.{◌≡◌, ◌+◌, ◌<◌};
ghost use Rattle.lists.specs.Lists.{eight};
ghost use Rattle.tasks.specs.Tick.{key, age, chosen};
ghost use Rattle.tasks.specs.Places.{place, earlier, earlier_in};

use crate::state::State;
use crate::table::Table;
use std::array;

// For each task, how many of the first j go before it, with task j counted too. Here and below, and in the ranks of `cores`, arrays are
// filled by `for`: with `array::from_fn` a choice took 657 instructions, and 570 so.
fn count_job(counts: [u16; 8], keys: [i16; 8], ages: [i16; 8], j: usize) -> [u16; 8]
    requires { (j < 8) × (counts ≡ eight (earlier_in keys ages j)) }
    ensures { result ≡ eight (earlier_in keys ages (j + 1)) }
{
    let mut out = [0u16; 8];
    for i in 0..8 {
        out[i] = counts[i] + u16::from(jobs::goes_before(keys[j], ages[j], j, keys[i], ages[i], i));
    }
    out
}

// For each task, how many go before it, by the keys and ages of all. A job is counted for all tasks at once, which the compiler makes into
// vectors.
fn count_earlier(keys: [i16; 8], ages: [i16; 8]) -> [u16; 8]
    ensures { result ≡ eight (earlier_in keys ages 8) }
{
    let mut counts = [0u16; 8];
    for j in 0..8 {
        let more = count_job(counts, keys, ages, j);
        counts = more;
    }
    counts
}

impl State {
    // By what the policy orders the job of task i: nothing, the time left or the slack.
    fn key(self, t: Table, i: usize) -> i16
        requires { i < 8 }
        ensures { result ≡ key t self i }
    {
        jobs::job_key(t.policy, t.deadline[i], t.gap[i], self.p[i], self.c[i])
    }

    // What settles equal keys: nothing, or the age.
    fn age(self, t: Table, i: usize) -> i16
        requires { i < 8 }
        ensures { result ≡ age t self i }
    {
        jobs::job_age(t.policy, t.gap[i], self.p[i])
    }

    fn keys(self, t: Table) -> [i16; 8]
        ensures { result ≡ eight (key t self) }
    {
        array::from_fn(|i| self.key(t, i))
    }

    fn ages(self, t: Table) -> [i16; 8]
        ensures { result ≡ eight (age t self) }
    {
        let mut ages = [0i16; 8];
        for i in 0..8 {
            ages[i] = self.age(t, i);
        }
        ages
    }

    // For each task, how many go before it.
    fn earlier(self, t: Table) -> [u16; 8]
        ensures { result ≡ eight (earlier t self) }
    {
        count_earlier(self.keys(t), self.ages(t))
    }

    fn places(self, t: Table) -> [u16; 8]
        ensures { result ≡ eight (place t self) }
    {
        let counts = self.earlier(t);
        let mut places = [0u16; 8];
        for i in 0..8 {
            places[i] = jobs::place_of(0 < self.c[i], self.keeps(t, i), counts[i]);
        }
        places
    }

    // Steps 2 and 3 of a tick: which tasks run, by a walk that gives out the processors.
    pub fn choose(self, t: Table) -> [bool; 8]
        ensures { result ≡ chosen t self }
    {
        let given = cores::assign(self.places(t), u16::from(t.m));
        let mut run = [false; 8];
        for i in 0..8 {
            run[i] = 0 < given[i];
        }
        run
    }
}
