// The verdict on a sheet, for C.
ghost use Rattle.ronchhek.specs.Verdicts.{Called};

// The search of a sheet's table: the answer's figures in one number.
#[unsafe(no_mangle)]
pub extern "C" fn ronchhek_verdict(sheet: &[u8], work: &mut [u8], trace: &mut [u8]) -> u64
    ensures { Called sheet.now work.old work.new trace.old trace.new result }
{
    ronchhek::ronchhek_verdict(sheet, work, trace)
}
