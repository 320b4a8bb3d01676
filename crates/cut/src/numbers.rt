// The first k of eight numbers.
ghost use Rattle.std.specs.Prelude.{◌≡◌};
ghost use Rattle.cut.specs.Cut.{first_of};

use std::array;

// The first k of eight numbers, and zeros after them.
pub(crate) fn first_of(k: u8, a: [u8; 8]) -> [u8; 8]
    ensures { result ≡ first_of k a }
{
    array::from_fn(|i| if i < usize::from(k) { a[i] } else { 0 })
}
