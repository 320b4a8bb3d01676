// States that stand one after the other, sixteen bytes each: a file of them, and the first column of a work space. They are read in place.
ghost use Rattle.std.specs.Prelude.{◌≡◌, ◌+◌, ◌*◌, ◌≤◌, length};
ghost use Rattle.tasks.specs.Words.{state_of};
ghost use Rattle.states.specs.Bytes.{four_at, state_in};
ghost use Rattle.states.specs.Keys.{key_in};

use crate::keys::Key;
use crate::words::words_from;

// The number in the four bytes from `at` on, low byte first.
pub fn four_at(bytes: &[u8], at: usize) -> u32
    requires { at + 4 ≤ length bytes.now }
    ensures { result ≡ four_at bytes.now at }
{
    u32::from_le_bytes([bytes[at], bytes[at + 1], bytes[at + 2], bytes[at + 3]])
}

// The key of state i.
pub fn key_in(bytes: &[u8], i: usize) -> Key
    requires { 16 * i + 16 ≤ length bytes.now }
    ensures { result ≡ key_in bytes.now i }
{
    let at = 16 * i;
    Key {
        a: four_at(bytes, at),
        b: four_at(bytes, at + 4),
        c: four_at(bytes, at + 8),
        d: four_at(bytes, at + 12),
    }
}

// The words of state i.
pub fn words_in(bytes: &[u8], i: usize) -> [u16; 8]
    requires { 16 * i + 16 ≤ length bytes.now }
    ensures { state_of result ≡ state_in bytes.now i }
{
    words_from(bytes, 16 * i)
}
