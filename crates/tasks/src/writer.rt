// The writer of a sheet.
ghost use Rattle.std.specs.Prelude.{◌≡◌, ◌+◌, ◌≤◌, ◌<◌, length};
ghost use Rattle.std.proofs.lemmas.List.Edits.{sets};
ghost use Rattle.tasks.specs.Answers.{writing_answer};
ghost use Rattle.tasks.specs.Sheet.{task_bytes, tasks_bytes, sheet_bytes, write_answer, write_out};

use crate::number::{number_len, put_number};
use crate::refusal::Refusal;
use crate::table::Table;

fn task_len(t: Table, i: usize) -> usize
    requires { i < 8 }
    ensures { (result ≡ length (task_bytes t i)) × (result ≤ 6) }
{
    number_len(t.work[i]) + number_len(t.deadline[i]) + number_len(t.gap[i])
}

fn tasks_len(t: Table) -> usize
    requires { t.n ≤ 8 }
    ensures { (result ≡ length (tasks_bytes t t.n 0)) × (result ≤ 48) }
{
    let mut total: usize = 0;
    for i in 0..usize::from(t.n) {
        total += task_len(t, i);
    }
    total
}

// The length of the sheet of a table.
fn sheet_len(t: Table) -> usize
    requires { t.n ≤ 8 }
    ensures { result ≡ length (sheet_bytes t) }
{
    number_len(3) + number_len(t.policy) + number_len(t.m) + number_len(t.n) + tasks_len(t)
}

fn put_task(out: &mut [u8], at: usize, t: Table, i: usize) -> usize
    requires { (i < 8) × (at + length (task_bytes t i) ≤ length out.old) }
    ensures { (result ≡ at + length (task_bytes t i)) × (out.new ≡ sets out.old at (task_bytes t i)) }
{
    let a = put_number(out, at, t.work[i]);
    let b = put_number(out, a, t.deadline[i]);
    put_number(out, b, t.gap[i])
}

fn put_tasks(out: &mut [u8], from: usize, t: Table)
    requires { (t.n ≤ 8) × (from + length (tasks_bytes t t.n 0) ≤ length out.old) }
    ensures { out.new ≡ sets out.old from (tasks_bytes t t.n 0) }
{
    let mut at = from;
    for i in 0..usize::from(t.n) {
        at = put_task(out, at, t, i);
    }
}

fn put_sheet(out: &mut [u8], t: Table)
    requires { (t.n ≤ 8) × (length (sheet_bytes t) ≤ length out.old) }
    ensures { out.new ≡ sets out.old 0 (sheet_bytes t) }
{
    let a = put_number(out, 0, 3);
    let b = put_number(out, a, t.policy);
    let c = put_number(out, b, t.m);
    let d = put_number(out, c, t.n);
    put_tasks(out, d, t);
}

// Writes the sheet of a table to the front of the output, and answers its length.
pub fn write_sheet(t: Table, out: &mut [u8]) -> Result<usize, Refusal>
    ensures { (writing_answer result ≡ write_answer t out.old) × (out.new ≡ write_out t out.old) }
{
    t.check()?;
    let n = sheet_len(t);
    if out.len() < n {
        return Err(Refusal::ShortOutput);
    }
    put_sheet(out, t);
    Ok(n)
}
