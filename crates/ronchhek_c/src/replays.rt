// The replay of a release list, for C.
ghost use Rattle.std.specs.Prelude.{◌≡◌};
ghost use Rattle.ronchhek.specs.Replays.{call_number, call_space};

// The replay of a sheet's table.
#[unsafe(no_mangle)]
pub extern "C" fn ronchhek_replay(sheet: &[u8], list: &[u8], state: &mut [u8]) -> u64
    ensures { (result ≡ call_number 16 sheet.now list.now state.old) × (state.new ≡ call_space sheet.now list.now state.old) }
{
    ronchhek::ronchhek_replay(sheet, list, state)
}
