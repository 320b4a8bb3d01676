// The sheet of a cut table, for C.
ghost use Rattle.std.specs.Prelude.{◌≡◌};
ghost use Rattle.ronchhek.specs.Cuts.{cut_number, cut_space};

// The sheet of a sheet's table cut to its first k tasks: kind 1 with the sheet's length, kind 0 with the refusal's number.
#[unsafe(no_mangle)]
pub extern "C" fn ronchhek_cut(sheet: &[u8], k: u8, out: &mut [u8]) -> u64
    ensures { (result ≡ cut_number sheet.now k out.old) × (out.new ≡ cut_space sheet.now k out.old) }
{
    ronchhek::ronchhek_cut(sheet, k, out)
}
