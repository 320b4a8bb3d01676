// The C call that writes the sheet of a cut table.
ghost use Rattle.std.specs.Prelude.{◌≡◌, ◌≤◌, IfOk};
ghost use Rattle.ronchhek.specs.Tables.{number_of};
ghost use Rattle.ronchhek.specs.Cuts.{cut_number, cut_space};

use crate::tables::number_of;
use tasks::Refusal;

// Writes the sheet of a sheet's table cut to its first k tasks, and answers its length.
fn write_cut(sheet: &[u8], k: u8, out: &mut [u8]) -> Result<usize, Refusal>
    ensures number { number_of result ≡ cut_number sheet.now k out.old }
    ensures few { IfOk result (λ n. n ≤ 52) }
    ensures space { out.new ≡ cut_space sheet.now k out.old }
{
    let table = tasks::read_sheet(sheet)?;
    let first = cut::cut_table(table, k)?;
    tasks::write_sheet(first, out)
}

// The sheet of a sheet's table cut to its first k tasks: kind 1 with the sheet's length, kind 0 with the refusal's number.
#[unsafe(no_mangle)]
pub extern "C" fn ronchhek_cut(sheet: &[u8], k: u8, out: &mut [u8]) -> u64
    ensures { (result ≡ cut_number sheet.now k out.old) × (out.new ≡ cut_space sheet.now k out.old) }
{
    number_of(write_cut(sheet, k, out))
}
