// The round trips as calls: a sheet read and written again, and a table written and read again.
ghost use Rattle.std.specs.Prelude.{◌≡◌};
ghost use Rattle.tasks.specs.Answers.{writing_answer};
ghost use Rattle.tasks.specs.Sheet.{copy_answer, copy_out, table_again};

use crate::refusal::Refusal;
use crate::sheet::read_sheet;
use crate::table::Table;
use crate::writer::write_sheet;

// Reads a sheet and writes its table to the output: an accepted sheet's own bytes.
pub fn copy_sheet(s: &[u8], out: &mut [u8]) -> Result<usize, Refusal>
    ensures { (writing_answer result ≡ copy_answer s.now out.old) × (out.new ≡ copy_out s.now out.old) }
{
    let table = read_sheet(s)?;
    write_sheet(table, out)
}

// Writes a table's sheet and reads it: a valid table itself.
pub fn copy_table(t: Table) -> Result<Table, Refusal>
    ensures { result ≡ table_again t }
{
    let mut out = [0u8; 52];
    let n = write_sheet(t, &mut out)?;
    read_sheet(&out[..n])
}
