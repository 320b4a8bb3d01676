// The states of a file, read in place.
ghost use Rattle.std.specs.Prelude.{◌≡◌, ℕ, ◌+◌, ◌*◌, ◌<◌, ◌≤◌, length, get_or};
ghost use Rattle.std.specs.Int.{w8};
ghost use Rattle.std.proofs.Common.{Fits};
ghost use Rattle.closed.specs.Keeping.{HeldIs};

use states::{Key, key_in, same_keys};

// The bytes of a file, and how many states they hold.
#[derive(Clone, Copy)]
pub(crate) struct File<'a> {
    pub(crate) bytes: &'a [u8],
    pub(crate) n: usize,
    pub(crate) ghost whole: { 16 * n ≤ length bytes.now },
    pub(crate) ghost fits: { (k : ℕ) → Fits w8 (get_or bytes.now k 0) },
}

impl File<'_> {
    // How many ticks task k is from its next release in state i.
    pub(crate) fn gap_at(self, i: usize, k: usize) -> u8
        requires { (i < self.n) × (k < 8) }
        ensures { result ≡ get_or self.entry.bytes.now (16 * i + 2 * k + 1) 0 }
    {
        self.bytes[16 * i + 2 * k + 1]
    }

    // Whether one of the states has the key, one after the other.
    pub(crate) fn scan(self, key: Key) -> bool
        ensures { HeldIs self.entry.bytes.now self.entry.n key result }
    {
        (0..self.n).any(|i| same_keys(key_in(self.bytes, i), key))
    }
}
