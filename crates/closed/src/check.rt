// The public calls: whether a file of states is closed, for a table and for a sheet.
ghost use Rattle.std.specs.Prelude.{◌≡◌, ◌<◌, ◌≤◌, length};
ghost use Rattle.closed.specs.Closed.{file_refusal, closed_answer, Judged, TableJudged, SheetJudged};
ghost use Rattle.closed.specs.Keeping.{Given, SoundIs, ClosedIs};

use crate::file::File;
use crate::passes::all_inside;
use crate::sound::is_sound;
use crate::split::split_of;
use states::{Ticking, key_of, words_in};
use tasks::{Refusal, Table, Valid};

// Whether every state of the file is proper, and no mask misses from any.
fn all_sound(ticking: Ticking, file: File) -> bool
    requires { Given ticking.table file.bytes.now file.n }
    ensures { SoundIs ticking.table file.entry.bytes.now result }
{
    (0..file.n).all(|i| is_sound(ticking, words_in(file.bytes, i)))
}

// Whether the file is closed, with the cells given.
fn closed_with(t: Table, file: File, cells: &mut [u32]) -> bool
    requires { Given t file.bytes.now file.n × (256 < length cells.old) }
    ensures { ClosedIs t file.entry.bytes.now result }
{
    let ticking = Ticking::of(t);
    if !all_sound(ticking, file) {
        return false;
    }
    let start = key_of([0u16; 8]);
    if !file.scan(start) {
        return false;
    }
    all_inside(ticking, file, cells, split_of(t))
}

// Whether the file is closed, with so many cells.
fn closed_with_cells<const CELLS: usize>(t: Table, file: File) -> bool
    requires { Given t file.bytes.now file.n × (256 < CELLS) × (CELLS ≤ 262400) }
    ensures { ClosedIs t file.entry.bytes.now result }
{
    let mut cells = [0u32; CELLS];
    closed_with(t, file, &mut cells)
}

// Whether the file is closed, with the cells for its states: the fewer, the sooner they are cleared and the nearer they are to the
// processor. The compiler makes one frame of the three.
fn closed_sized(t: Table, file: File) -> bool
    requires { Given t file.bytes.now file.n }
    ensures { ClosedIs t file.entry.bytes.now result }
{
    if file.n <= 12288 {
        closed_with_cells::<16640>(t, file)
    } else if file.n <= 49152 {
        closed_with_cells::<65792>(t, file)
    } else {
        closed_with_cells::<262400>(t, file)
    }
}

// The answer for a valid table.
fn closed_valid(valid: Valid, file: &[u8]) -> Result<bool, Refusal>
    ensures { Judged (file_refusal file.now) valid.table file.now (closed_answer result) }
{
    let length = file.len();
    if length == 0 || 0 < length % 16 {
        return Err(Refusal::FileLength);
    }
    let states = File {
        bytes: file,
        n: length / 16,
    };
    Ok(closed_sized(valid.table, states))
}

// Whether a file of states is closed under the ticks of a table.
pub fn closed_table(t: Table, file: &[u8]) -> Result<bool, Refusal>
    ensures { TableJudged t file.now (closed_answer result) }
{
    t.check()?;
    closed_valid(Valid { table: t }, file)
}

// .. under the ticks of a sheet's table.
pub fn closed_sheet(sheet: &[u8], file: &[u8]) -> Result<bool, Refusal>
    ensures { SheetJudged sheet.now file.now (closed_answer result) }
{
    let t = tasks::read_sheet(sheet)?;
    closed_valid(Valid { table: t }, file)
}
