// Tables and states that are cut.
ghost use Rattle.std.specs.Prelude.{◌≡◌};
ghost use Rattle.cut.specs.Cut.{cut_table, cut_state, cut_of};

use crate::numbers::first_of;
use tasks::{Refusal, State, Table};

// The first k tasks of a table, for any table and k.
fn first_tasks(t: Table, k: u8) -> Table
    ensures { result ≡ cut_table k t }
{
    Table {
        policy: t.policy,
        m: t.m,
        n: k,
        work: first_of(k, t.work),
        deadline: first_of(k, t.deadline),
        gap: first_of(k, t.gap),
    }
}

// The table cut to its first k tasks: 4 to 7 for the table, then 6 where k is outside 1 to n.
pub fn cut_table(t: Table, k: u8) -> Result<Table, Refusal>
    ensures { result ≡ cut_of t k }
{
    t.check()?;
    if !(1..=t.n).contains(&k) {
        return Err(Refusal::TaskCount);
    }
    Ok(first_tasks(t, k))
}

// A state cut to the first k tasks, for any state and k.
pub fn cut_state(s: State, k: u8) -> State
    ensures { result ≡ cut_state k s }
{
    State {
        c: first_of(k, s.c),
        p: first_of(k, s.p),
    }
}
