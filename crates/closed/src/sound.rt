// Whether a state is proper and no mask misses from it.
ghost use Rattle.std.specs.Prelude.{◌≡◌};
ghost use Rattle.lists.specs.Lists.{count};
ghost use Rattle.tasks.specs.State.{started};
ghost use Rattle.tasks.specs.Table.{table_fault};
ghost use Rattle.tasks.specs.Words.{state_of};
ghost use Rattle.closed.specs.Keeping.{StateIs, work_above, gap_above, exceeds};

use states::{Ticking, full_misses};
use tasks::{Table, gap_in, misses, tight, work_in};

// How many tasks of the state in the words have c above C. These are counts, where tests would do: the compiler makes vectors
// of them also where a branch follows.
fn count_work_above(t: Table, v: [u16; 8]) -> u8
    ensures { result ≡ count 8 (work_above t (state_of v)) }
{
    lists::count_places(|i| t.work[i] < work_in(v[i]))
}

// How many have p above P.
fn count_gap_above(t: Table, v: [u16; 8]) -> u8
    ensures { result ≡ count 8 (gap_above t (state_of v)) }
{
    lists::count_places(|i| t.gap[i] < gap_in(v[i]))
}

// How many jobs of the state in the words are started.
fn count_started(t: Table, v: [u16; 8]) -> u8
    ensures { result ≡ count 8 (started t (state_of v)) }
{
    lists::count_places(|i| {
        let c = work_in(v[i]);
        (0 < c) & (c < t.work[i])
    })
}

// Whether some task of the state in the words has c above C or p above P, or more than m jobs keep a processor. A state of a
// valid table is improper where this is so or a job is late.
fn exceeds(t: Table, v: [u16; 8]) -> bool
    ensures { result ≡ exceeds t (state_of v) }
{
    if 0 < count_work_above(t, v) {
        return true;
    }
    if 0 < count_gap_above(t, v) {
        return true;
    }
    jobs::keeps_running(t.policy) & (t.m < count_started(t, v))
}

// Whether the state in the words is proper and no mask misses from it. A late job is tight, so where none is tight none is late.
pub(crate) fn is_sound(ticking: Ticking, v: [u16; 8]) -> bool
    requires { table_fault ticking.table ≡ 0 }
    ensures { StateIs ticking.table (state_of v) result }
{
    let Ticking { table, ticker } = ticking;
    if exceeds(table, v) {
        return false;
    }
    if !tight(table, v) {
        return true;
    }
    if misses(table, v) {
        return false;
    }
    !full_misses(table, ticker, v)
}
