// The reader of a sheet.
ghost use Rattle.std.specs.Prelude.{◌≡◌, ◌≤◌, ◌<◌};
ghost use Rattle.tasks.specs.Sheet.{field_at, task_of, task_at, with_task, empty_table, from_tasks, from_policy, sheet_of};

use crate::number::read_number;
use crate::refusal::Refusal;
use crate::table::{LAST_POLICY, Table, breaks};

// The three numbers of a task.
#[derive(Clone, Copy, Debug, PartialEq, Eq)]
pub struct Task {
    pub work: u8,
    pub deadline: u8,
    pub gap: u8,
}

impl Table {
    // A table of n tasks before any is set.
    pub fn empty(policy: u8, m: u8, n: u8) -> Table
        ensures { result ≡ empty_table policy m n }
    {
        Table {
            policy,
            m,
            n,
            work: [0; 8],
            deadline: [0; 8],
            gap: [0; 8],
        }
    }

    // The table with the numbers of task i set.
    pub fn with_task(self, i: usize, task: Task) -> Table
        requires { i < 8 }
        ensures { result ≡ with_task self i task }
    {
        let mut next = self;
        next.work[i] = task.work;
        next.deadline[i] = task.deadline;
        next.gap[i] = task.gap;
        next
    }
}

// A number that is to be from low to high, or is refused by the field's own rule.
fn read_field(
    s: &[u8],
    at: usize,
    low: usize,
    high: usize,
    why: Refusal,
) -> Result<(usize, usize), Refusal>
    ensures { result ≡ field_at s.now at low high why }
{
    let (v, next) = read_number(s, at)?;
    if (v < low) | (high < v) {
        return Err(why);
    }
    Ok((v, next))
}

// A task of three numbers, judged once they are read.
fn task_of(work: usize, deadline: usize, gap: usize, next: usize) -> Result<(Task, usize), Refusal>
    ensures { result ≡ task_of work deadline gap next }
{
    if breaks(work, deadline, gap) {
        return Err(Refusal::Task);
    }
    let task = Task {
        work: work as u8,
        deadline: deadline as u8,
        gap: gap as u8,
    };
    Ok((task, next))
}

fn read_task(s: &[u8], at: usize) -> Result<(Task, usize), Refusal>
    ensures { result ≡ task_at s.now at }
{
    let (work, a) = read_number(s, at)?;
    let (deadline, b) = read_number(s, a)?;
    let (gap, next) = read_number(s, b)?;
    task_of(work, deadline, gap, next)
}

// The tasks, and then the end.
fn read_tasks(s: &[u8], from: usize, policy: u8, m: u8, n: u8) -> Result<Table, Refusal>
    requires { n ≤ 8 }
    ensures { result ≡ from_tasks s.now policy m n from }
{
    let mut t = Table::empty(policy, m, n);
    let mut at = from;
    for i in 0..usize::from(n) {
        let (task, next) = read_task(s, at)?;
        t = t.with_task(i, task);
        at = next;
    }
    if at < s.len() {
        return Err(Refusal::LaterBytes);
    }
    Ok(t)
}

// Policy, m and n, and then the tasks.
fn read_header(s: &[u8], at: usize) -> Result<Table, Refusal>
    ensures { result ≡ from_policy s.now at }
{
    let (policy, a) = read_field(s, at, 0, LAST_POLICY, Refusal::Policy)?;
    let (m, b) = read_field(s, a, 1, 8, Refusal::Processors)?;
    let (n, next) = read_field(s, b, 1, 8, Refusal::TaskCount)?;
    read_tasks(s, next, policy as u8, m as u8, n as u8)
}

// The table that a sheet gives, or the refusal of its first fault in reading order.
pub fn read_sheet(s: &[u8]) -> Result<Table, Refusal>
    ensures { result ≡ sheet_of s.now }
{
    let (_, next) = read_field(s, 0, 3, 3, Refusal::FieldCount)?;
    read_header(s, next)
}
