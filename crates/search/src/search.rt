// The public calls: the search of a table and the search of a sheet.
ghost use Rattle.std.specs.Prelude.{◌≡◌, ◌/◌, ◌<◌, ◌≤◌, min, Ok};
ghost use Rattle.slots.specs.Layout.{columns};
ghost use Rattle.search.specs.Claim.{slots_in, spaces_refusal, figures, Found, Search, TableSearch, SheetSearch};
ghost use Rattle.search.specs.Keeping.{written_by, Fresh, RanBy, Lent, Finishing, Finished};

use crate::outcome::report;
use crate::run::{End, Verdict, run_levels};
use slots::settle;
use states::Ticking;
use tasks::{Refusal, Table, Valid};

// How many slots a work space of this length has, at most 1,000,000.
fn slots_in(length: usize) -> usize
    ensures { result ≡ min (length / 21) 1000000 }
{
    (length / 21).min(1000000)
}

// How many of k slots are written where the levels ended so.
fn written(k: usize, end: End) -> usize
    ensures { result ≡ written_by k end }
{
    match end {
        End::Missed { filled, .. } => filled,
        End::Closed(n) => n,
        End::Full => k,
    }
}

// Searches the states of a valid table, with no slot of k filled yet. The words stay in the place of the parents.
fn search_levels(t: Table, work: &mut [u8], heads: &mut [u32], ends: &mut [u32], k: usize) -> End
    requires { Fresh t k ends.old work.old heads.old }
    ensures { RanBy t k ends.new work.old work.new result }
{
    run_levels(Ticking::of(t), work, heads, ends, k)
}

// Writes the parents in the place of the words, and reports. It stands apart from the levels: with the last pass in line, their loops took
// up to a tenth longer.
fn finish(work: &mut [u8], trace: &mut [u8], ends: &[u32], k: usize, end: End) -> Verdict
    requires { Finishing k ends.now work.old trace.old end }
    ensures { Finished k ends.now work.old work.new trace.old trace.new end result }
{
    let n = written(k, end);
    settle(work, ends, k, n);
    report(work, trace, k, end)
}

// The search with this many heads on the stack. It is kept out of line, so that each number of heads stands in a frame of its own and a
// small work space does not pay a large one's stack.
#[inline(never)]
fn search_with<const HEADS: usize>(t: Table, work: &mut [u8], trace: &mut [u8], k: usize) -> Verdict
    requires lent { Lent t work.old trace.old k }
    requires heads { (0 < HEADS) × (HEADS ≤ 262144) }
    ensures { Found (columns k) k t work.old work.new trace.old trace.new (figures (Ok result)) }
{
    let mut heads = [0u32; HEADS];
    let mut ends = [1000000u32; 245];
    let end = search_levels(t, work, &mut heads, &mut ends, k);
    finish(work, trace, &ends, k, end)
}

// The search with the heads for a work space of k slots: 16 KB, 256 KB or 1 MB.
fn search_sized(t: Table, work: &mut [u8], trace: &mut [u8], k: usize) -> Verdict
    requires { Lent t work.old trace.old k }
    ensures { Found (columns k) k t work.old work.new trace.old trace.new (figures (Ok result)) }
{
    if k <= 16384 {
        return search_with::<4096>(t, work, trace, k);
    }
    if k <= 262144 {
        return search_with::<65536>(t, work, trace, k);
    }
    search_with::<262144>(t, work, trace, k)
}

// The search of a valid table.
fn search_valid(valid: Valid, work: &mut [u8], trace: &mut [u8]) -> Result<Verdict, Refusal>
    ensures { Search (columns (slots_in work.old)) (slots_in work.old) (spaces_refusal (slots_in work.old) trace.old) valid.table work.old work.new trace.old trace.new (figures result) }
{
    let k = slots_in(work.len());
    if k == 0 {
        return Err(Refusal::NoSlot);
    }
    if trace.len() < k {
        return Err(Refusal::ShortTrace);
    }
    Ok(search_sized(valid.table, work, trace, k))
}

// The search of a table.
pub fn search_table(t: Table, work: &mut [u8], trace: &mut [u8]) -> Result<Verdict, Refusal>
    ensures { TableSearch t work.old work.new trace.old trace.new (figures result) }
{
    t.check()?;
    search_valid(Valid { table: t }, work, trace)
}

// The search of a sheet's table.
pub fn search_sheet(sheet: &[u8], work: &mut [u8], trace: &mut [u8]) -> Result<Verdict, Refusal>
    ensures { SheetSearch sheet.now work.old work.new trace.old trace.new (figures result) }
{
    let t = tasks::read_sheet(sheet)?;
    search_valid(Valid { table: t }, work, trace)
}
