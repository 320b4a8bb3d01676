// The program `verdict` but for its read and its write.
ghost use Rattle.std.specs.Prelude.{◌≡◌, ◌++◌, length, drop};
ghost use Rattle.tasks.specs.Refusals.{refusal_number};
ghost use Rattle.lines.specs.Lines.{numbered, lines_of};
ghost use Rattle.lines.specs.Judged.{Judged};

use crate::text::write_lines;
use search::Verdict;
use tasks::Refusal;

// Writes the lines of an answer to an output that has room for every one: a first line, and a line of at most four bytes for each
// of 8,192 masks. Answers their length.
fn print_lines(a: Result<Verdict, Refusal>, trace: &[u8; 8192], out: &mut [u8; 32896]) -> usize
    ensures { (result ≡ length (lines_of (numbered refusal_number a) trace.now)) × (out.new ≡ lines_of (numbered refusal_number a) trace.now ++ drop result out.old) }
{
    write_lines(a, trace, out).unwrap_or(0)
}

// Searches a sheet's table with the spaces that document 01 says, and writes the lines of the answer.
pub fn judge(sheet: &[u8], out: &mut [u8; 32896]) -> usize
    ensures { Judged sheet.now out.old out.new result }
{
    let mut work = [0u8; 65520];
    let mut trace = [0u8; 8192];
    let a = search::search_sheet(sheet, &mut work, &mut trace);
    print_lines(a, &trace, out)
}
