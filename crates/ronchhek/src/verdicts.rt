// The verdict on a sheet.
ghost use Rattle.std.specs.Prelude.{◌≡◌, ◌^◌, ◌<◌};
ghost use Rattle.search.specs.Claim.{figures};
ghost use Rattle.ronchhek.specs.Verdicts.{packed, Low, Called};

use crate::tables::DONE;
use search::Verdict;
use tasks::Refusal;

// The unit of a length.
const LENGTH: u64 = 1 << 24;

// An answer's figures in one number: kind × 2^48 + L × 2^24 + N.
#[tactic(auto, unfolding(crate::specs::Verdicts::packed))]
fn pack(answer: Result<Verdict, Refusal>) -> u64
    requires { Low (figures answer) }
    ensures { (result ≡ packed (figures answer)) × ((figures answer).L < 2 ^ 24) × ((figures answer).N < 2 ^ 24) }
{
    match answer {
        Ok(Verdict::Safe(n)) => DONE + n as u64,
        Ok(Verdict::Unsafe(l, n)) => 2 * DONE + LENGTH * (l as u64) + n as u64,
        Ok(Verdict::NoRoom(n)) => 3 * DONE + n as u64,
        Err(why) => u64::from(why.number()),
    }
}

// The search of a sheet's table: the answer's figures in one number.
#[unsafe(no_mangle)]
pub extern "C" fn ronchhek_verdict(sheet: &[u8], work: &mut [u8], trace: &mut [u8]) -> u64
    ensures { Called sheet.now work.old work.new trace.old trace.new result }
{
    pack(search::search_sheet(sheet, work, trace))
}
