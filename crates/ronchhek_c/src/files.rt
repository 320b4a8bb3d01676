// The judgement of a file of states, for C.
ghost use Rattle.ronchhek.specs.Files.{FileJudged};

// Whether a file of states is closed under the ticks of a sheet's table: kind × 2^48 + N, kind 1 accepted, 2 No, 0 with the refusal's
// number N.
#[unsafe(no_mangle)]
pub extern "C" fn ronchhek_closed(sheet: &[u8], states: &[u8]) -> u64
    ensures { FileJudged sheet.now states.now result }
{
    ronchhek::ronchhek_closed(sheet, states)
}
