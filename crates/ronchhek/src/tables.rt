// A sheet's table as 27 bytes, and the sheet of such a table.
ghost use Rattle.std.specs.Prelude.{◌≡◌, ◌+◌, ◌*◌, ◌≤◌, get_or, IfOk};
ghost use Rattle.lists.specs.Lists.{eight};
ghost use Rattle.ronchhek.specs.Tables.{table_bytes, table_from, number_of, read_number, read_space, write_number, write_space};

use std::array;
use tasks::{Refusal, Table};

// How many bytes a table has.
const BYTES: usize = 27;

// Kind 1.
pub(crate) const DONE: u64 = 1 << 48;

// The number of an answer: kind 1 with the length written, kind 0 with the refusal's number.
pub(crate) fn number_of(answer: Result<usize, Refusal>) -> u64
    requires { IfOk answer (λ n. n ≤ 52) }
    ensures { result ≡ number_of answer }
{
    match answer {
        Ok(n) => DONE + n as u64,
        Err(why) => u64::from(why.number()),
    }
}

// One number of each of eight tasks, the first at `at` and then every third byte.
fn column(b: &[u8; BYTES], at: usize) -> [u8; 8]
    requires { at ≤ 5 }
    ensures { result ≡ eight (λ i. get_or b.now (at + 3 * i) 0) }
{
    array::from_fn(|i| b[at + 3 * i])
}

// The table in 27 bytes.
fn table_from(b: &[u8; BYTES]) -> Table
    ensures { result ≡ table_from b.now }
{
    Table {
        policy: b[0],
        m: b[1],
        n: b[2],
        work: column(b, 3),
        deadline: column(b, 4),
        gap: column(b, 5),
    }
}

// Writes a table's 27 bytes.
fn put_table(out: &mut [u8; BYTES], t: Table)
    ensures { out.new ≡ table_bytes t }
{
    out[0] = t.policy;
    out[1] = t.m;
    out[2] = t.n;
    for i in 0..8 {
        let at = 3 + 3 * i;
        out[at] = t.work[i];
        out[at + 1] = t.deadline[i];
        out[at + 2] = t.gap[i];
    }
}

// Writes the 27 bytes of a sheet's table, and answers their number.
fn read_table(sheet: &[u8], table: &mut [u8]) -> Result<usize, Refusal>
    ensures number { number_of result ≡ read_number sheet.now table.old }
    ensures few { IfOk result (λ n. n ≤ 52) }
    ensures space { table.new ≡ read_space sheet.now table.old }
{
    let t = tasks::read_sheet(sheet)?;
    let Some(front) = table.first_chunk_mut::<BYTES>() else {
        return Err(Refusal::ShortOutput);
    };
    put_table(front, t);
    Ok(BYTES)
}

// The table of a sheet: kind × 2^48 + N, kind 1 with the 27 bytes written, kind 0 with the refusal's number.
#[unsafe(no_mangle)]
pub extern "C" fn ronchhek_read(sheet: &[u8], table: &mut [u8]) -> u64
    ensures { (result ≡ read_number sheet.now table.old) × (table.new ≡ read_space sheet.now table.old) }
{
    number_of(read_table(sheet, table))
}

// Writes the sheet of a table of 27 bytes, and answers its length.
fn write_table(table: &[u8], out: &mut [u8]) -> Result<usize, Refusal>
    ensures number { number_of result ≡ write_number table.now out.old }
    ensures few { IfOk result (λ n. n ≤ 52) }
    ensures space { out.new ≡ write_space table.now out.old }
{
    let Some((bytes, later)) = table.split_first_chunk::<BYTES>() else {
        return Err(Refusal::Incomplete);
    };
    if !later.is_empty() {
        return Err(Refusal::LaterBytes);
    }
    tasks::write_sheet(table_from(bytes), out)
}

// The sheet of a table of 27 bytes: kind 1 with the sheet's length, kind 0 with the refusal's number.
#[unsafe(no_mangle)]
pub extern "C" fn ronchhek_write(table: &[u8], out: &mut [u8]) -> u64
    ensures { (result ≡ write_number table.now out.old) × (out.new ≡ write_space table.now out.old) }
{
    number_of(write_table(table, out))
}
