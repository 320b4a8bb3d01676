// The state by value: its release and run, the miss, and when it is proper.
ghost use Rattle.std.specs.Prelude.{◌≡◌, ◌-◌, ◌<◌};
ghost use Rattle.lists.specs.Lists.{count, any};
ghost use Rattle.tasks.specs.State.{start, started, keeps, late, improper_at, improper};
ghost use Rattle.tasks.specs.Tick.{bit, released, ran, missed, illegal_at, illegal};

use crate::table::Table;
use std::array;

// For each of eight tasks: the work left c, and the ticks p until it may be released again. Document 01 names this form.
#[derive(Clone, Copy, Debug, PartialEq, Eq)]
pub struct State {
    pub c: [u8; 8],
    pub p: [u8; 8],
}

// Whether bit i of the mask is set.
pub fn has_bit(mask: u8, i: usize) -> bool
    requires { i < 8 }
    ensures { result ≡ bit mask i }
{
    (mask >> i) % 2 == 1
}

impl State {
    // The start state, all 0.
    pub fn start() -> State
        ensures { result ≡ start }
    {
        State {
            c: [0; 8],
            p: [0; 8],
        }
    }

    // Step 1 of a tick: each task whose bit is set gets c = C and p = P.
    pub fn release(self, t: Table, mask: u8) -> State
        ensures { result ≡ released t self mask }
    {
        State {
            c: array::from_fn(|i| if has_bit(mask, i) {
                t.work[i]
            } else {
                self.c[i]
            }),
            p: array::from_fn(|i| if has_bit(mask, i) {
                t.gap[i]
            } else {
                self.p[i]
            }),
        }
    }

    // Step 4 of a tick, where the tasks of `run` run: their c falls by 1, and every p above 0 does.
    pub fn run(self, run: [bool; 8]) -> State
        ensures { result ≡ ran self run }
    {
        State {
            c: array::from_fn(|i| if run[i] {
                self.c[i].saturating_sub(1)
            } else {
                self.c[i]
            }),
            p: array::from_fn(|i| self.p[i].saturating_sub(1)),
        }
    }

    // Whether the job of task i is late.
    fn late(self, t: Table, i: usize) -> bool
        requires { i < 8 }
        ensures { result ≡ late t self i }
    {
        jobs::late_job(t.deadline[i], t.gap[i], self.p[i], self.c[i])
    }

    // Step 5 of a tick: whether some job is late.
    pub fn missed(self, t: Table) -> bool
        ensures { result ≡ missed t self }
    {
        lists::any_place(|i| self.late(t, i))
    }

    // Whether the job of task i is started.
    fn started(self, t: Table, i: usize) -> bool
        requires { i < 8 }
        ensures { result ≡ started t self i }
    {
        let c = self.c[i];
        let work = t.work[i];
        (0 < c) & (c < work)
    }

    // Whether the job of task i keeps its processor.
    pub(crate) fn keeps(self, t: Table, i: usize) -> bool
        requires { i < 8 }
        ensures { result ≡ keeps t self i }
    {
        jobs::keeps_running(t.policy) & self.started(t, i)
    }

    // How many jobs keep a processor.
    fn count_kept(self, t: Table) -> u8
        ensures { result ≡ count 8 (keeps t self) }
    {
        lists::count_places(|i| self.keeps(t, i))
    }

    // Whether task i is not proper.
    fn improper_at(self, t: Table, i: usize) -> bool
        requires { i < 8 }
        ensures { result ≡ improper_at t self i }
    {
        let c = self.c[i];
        let p = self.p[i];
        let work = t.work[i];
        let gap = t.gap[i];
        let n = usize::from(t.n);
        (work < c) | (gap < p) | self.late(t, i) | ((n <= i) & ((0 < c) | (0 < p)))
    }

    fn any_improper(self, t: Table) -> bool
        ensures { result ≡ any 8 (improper_at t self) }
    {
        lists::any_place(|i| self.improper_at(t, i))
    }

    // Whether the state is not proper.
    pub fn improper(self, t: Table) -> bool
        ensures { result ≡ improper t self }
    {
        self.any_improper(t) | (t.m < self.count_kept(t))
    }

    // Whether the mask's bit i is set for no task, or for one that may not be released yet.
    fn illegal_at(self, t: Table, mask: u8, i: usize) -> bool
        requires { i < 8 }
        ensures { result ≡ illegal_at t self mask i }
    {
        let p = self.p[i];
        let n = usize::from(t.n);
        has_bit(mask, i) & ((n <= i) | (0 < p))
    }

    // Whether the mask is not legal.
    pub fn illegal(self, t: Table, mask: u8) -> bool
        ensures { result ≡ illegal t self mask }
    {
        lists::any_place(|i| self.illegal_at(t, mask, i))
    }
}
