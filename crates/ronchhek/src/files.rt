// The file of states that a yard keeps with a Safe verdict, judged.
ghost use Rattle.ronchhek.specs.Files.{FileJudged};

use crate::tables::DONE;

// Whether a file of states is closed under the ticks of a sheet's table: kind × 2^48 + N, kind 1 accepted, 2 No, 0 refused with N.
#[unsafe(no_mangle)]
pub extern "C" fn ronchhek_closed(sheet: &[u8], states: &[u8]) -> u64
    ensures { FileJudged sheet.now states.now result }
{
    match closed::closed_sheet(sheet, states) {
        Ok(true) => DONE,
        Ok(false) => 2 * DONE,
        Err(why) => u64::from(why.number()),
    }
}
