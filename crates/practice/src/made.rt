// The table that is made of the draws, and its refusals.
ghost use Rattle.std.specs.Prelude.{◌≡◌};
ghost use Rattle.practice.specs.Practice.{practice_table, practice_of};

use crate::draws::{drawn, task_of};
use tasks::{Refusal, Table};

// The table of the first n tasks, for any policy, m and n; it has room for eight.
fn draw_table(policy: u8, m: u8, n: u8, seed: u16) -> Table
    ensures { result ≡ practice_table policy m n seed }
{
    let mut t = Table::empty(policy, m, n);
    let mut s = seed;
    for i in 0..usize::from(n.min(8)) {
        let first = drawn(s);
        let second = drawn(first);
        let third = drawn(second);
        let task = task_of(first, second, third);
        t = t.with_task(i, task);
        s = third;
    }
    t
}

// The practice table of policy, m, n and a seed, or the refusal of one of the first three. It is judged as every table is.
pub fn practice_table(policy: u8, m: u8, n: u8, seed: u16) -> Result<Table, Refusal>
    ensures { result ≡ practice_of policy m n seed }
{
    let table = draw_table(policy, m, n, seed);
    table.check()?;
    Ok(table)
}
