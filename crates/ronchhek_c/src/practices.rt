// The practice sheets, for C.
ghost use Rattle.std.specs.Prelude.{◌≡◌};
ghost use Rattle.ronchhek.specs.Practices.{practice_number, practice_space};

// The sheet of the practice table of policy, m, n and a seed: kind 1 with the sheet's length, kind 0 with the refusal's number.
#[unsafe(no_mangle)]
pub extern "C" fn ronchhek_practice(policy: u8, m: u8, n: u8, seed: u16, out: &mut [u8]) -> u64
    ensures { (result ≡ practice_number policy m n seed out.old) × (out.new ≡ practice_space policy m n seed out.old) }
{
    ronchhek::ronchhek_practice(policy, m, n, seed, out)
}
