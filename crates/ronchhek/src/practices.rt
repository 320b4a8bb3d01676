// The C call that writes a practice sheet.
ghost use Rattle.std.specs.Prelude.{◌≡◌, ◌≤◌, IfOk};
ghost use Rattle.ronchhek.specs.Tables.{number_of};
ghost use Rattle.ronchhek.specs.Practices.{practice_number, practice_space};

use crate::tables::number_of;
use tasks::Refusal;

// Writes the sheet of the practice table of policy, m, n and a seed, and answers its length.
fn write_practice(policy: u8, m: u8, n: u8, seed: u16, out: &mut [u8]) -> Result<usize, Refusal>
    ensures number { number_of result ≡ practice_number policy m n seed out.old }
    ensures few { IfOk result (λ n. n ≤ 52) }
    ensures space { out.new ≡ practice_space policy m n seed out.old }
{
    let table = practice::practice_table(policy, m, n, seed)?;
    tasks::write_sheet(table, out)
}

// The sheet of the practice table of policy, m, n and a seed: kind 1 with the sheet's length, kind 0 with the refusal's number.
#[unsafe(no_mangle)]
pub extern "C" fn ronchhek_practice(policy: u8, m: u8, n: u8, seed: u16, out: &mut [u8]) -> u64
    ensures { (result ≡ practice_number policy m n seed out.old) × (out.new ≡ practice_space policy m n seed out.old) }
{
    number_of(write_practice(policy, m, n, seed, out))
}
