// The words of a state in bytes: c + 256 p for each task, its two bytes as one number.
ghost use Rattle.std.specs.Prelude.{◌≡◌, ◌+◌, ◌*◌, ◌≤◌, length};
ghost use Rattle.tasks.specs.Words.{state_of};
ghost use Rattle.states.specs.Bytes.{state_from};

use std::array;

// The words of the state in the sixteen bytes from `at` on, which must be there. In this form the compiler reads them as one vector.
pub(crate) fn words_from(bytes: &[u8], at: usize) -> [u16; 8]
    requires { at + 16 ≤ length bytes.now }
    ensures { state_of result ≡ state_from bytes.now at }
{
    array::from_fn(|k| u16::from_le_bytes([bytes[at + 2 * k], bytes[at + 2 * k + 1]]))
}
