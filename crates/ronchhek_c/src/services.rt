// The replay of a release list with its totals, for C.
ghost use Rattle.std.specs.Prelude.{◌≡◌};
ghost use Rattle.ronchhek.specs.Replays.{call_number};
ghost use Rattle.ronchhek.specs.Services.{call_totals};

// The replay of a sheet's table, with its totals.
#[unsafe(no_mangle)]
pub extern "C" fn ronchhek_service(sheet: &[u8], list: &[u8], totals: &mut [u8]) -> u64
    ensures { (result ≡ call_number 192 sheet.now list.now totals.old) × (totals.new ≡ call_totals sheet.now list.now totals.old) }
{
    ronchhek::ronchhek_service(sheet, list, totals)
}
