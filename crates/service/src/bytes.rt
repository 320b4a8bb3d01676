// The totals as bytes.
ghost use Rattle.std.specs.Prelude.{◌≡◌, ◌+◌, ◌≤◌, length};
ghost use Rattle.std.proofs.lemmas.List.Edits.{sets};
ghost use Rattle.service.specs.Bytes.{low_first, row_bytes, totals_bytes, totals_writing, totals_space};

use crate::totals::Totals;
use tasks::Refusal;

// Writes a number in eight bytes from `at` on, low byte first.
fn put_number(out: &mut [u8], at: usize, n: u64)
    requires { at + 8 ≤ length out.old }
    ensures { out.new ≡ sets out.old at (low_first 8 n) }
{
    out[at..at + 8].copy_from_slice(&n.to_le_bytes());
}

// Writes the three numbers of a task from `at` on.
fn put_row(out: &mut [u8], at: usize, releases: u64, ran: u64, left: u64)
    requires { at + 24 ≤ length out.old }
    ensures { out.new ≡ sets out.old at (row_bytes releases ran left) }
{
    put_number(out, at, releases);
    put_number(out, at + 8, ran);
    put_number(out, at + 16, left);
}

// Writes the rows of all tasks to the front of a space that has room for them.
fn put_rows(x: Totals, out: &mut [u8])
    requires { 192 ≤ length out.old }
    ensures { out.new ≡ sets out.old 0 (totals_bytes x) }
{
    for i in 0..8 {
        put_row(out, 24 * i, x.releases[i], x.ran[i], x.left[i]);
    }
}

// Writes totals to the front of a space.
pub fn write_totals(x: Totals, out: &mut [u8]) -> Result<usize, Refusal>
    ensures { (result ≡ totals_writing out.old) × (out.new ≡ totals_space x out.old) }
{
    if out.len() < 192 {
        return Err(Refusal::ShortOutput);
    }
    put_rows(x, out);
    Ok(192)
}
