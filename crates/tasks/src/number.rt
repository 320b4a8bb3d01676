// Sheet numbers: groups of seven bits, low group first, the top bit of a byte set when another follows.
ghost use Rattle.std.specs.Prelude.{◌≡◌, ◌+◌, ◌≤◌, ◌<◌, length, set};
ghost use Rattle.std.proofs.lemmas.List.Edits.{sets};
ghost use Rattle.tasks.specs.Number.{number_bytes, number_at};

use crate::refusal::Refusal;

// The number at a place, one or two bytes, and the place after it.
pub fn read_number(s: &[u8], at: usize) -> Result<(usize, usize), Refusal>
    ensures { result ≡ number_at s.now at }
{
    if s.len() <= at {
        return Err(Refusal::Incomplete);
    }
    let low = usize::from(s[at]);
    if low < 128 {
        return Ok((low, at + 1));
    }
    let next = at + 1;
    if s.len() <= next {
        return Err(Refusal::Incomplete);
    }
    let high = usize::from(s[next]);
    if high < 1 {
        return Err(Refusal::SecondByte);
    }
    if high < 128 {
        return Ok((low - 128 + 128 * high, next + 1));
    }
    Err(Refusal::SecondByte)
}

// How many bytes a number takes.
pub(crate) fn number_len(x: u8) -> usize
    ensures { (result ≡ length (number_bytes x)) × (result ≤ 2) }
{
    if x < 128 { 1 } else { 2 }
}

// Writes a number at a place, and answers the place after it.
pub(crate) fn put_number(out: &mut [u8], at: usize, x: u8) -> usize
    requires { at + length (number_bytes x) ≤ length out.old }
    ensures { (result ≡ at + length (number_bytes x)) × (out.new ≡ sets out.old at (number_bytes x)) }
{
    if x < 128 {
        out[at] = x;
        return at + 1;
    }
    out[at] = x % 128 + 128;
    out[at + 1] = x / 128;
    at + 2
}
