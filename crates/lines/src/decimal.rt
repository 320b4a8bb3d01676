// Bytes, numbers in decimal, and lines of a word and a number, written at a place of an output.
ghost use Rattle.std.specs.Prelude.{◌≡◌, ◌+◌, ◌≤◌, ◌++◌, length};
ghost use Rattle.std.proofs.lemmas.List.Edits.{sets};
ghost use Rattle.lines.specs.Lines.{decimal, line};

// How many digits a number has. Here and in `put_decimal` the loop goes over the digits: no promise of the library says them.
pub(crate) fn decimal_len(x: usize) -> usize
    ensures { (result ≡ length (decimal x)) × (result ≤ 20) }
{
    let mut rest = x;
    let mut n: usize = 1;
    while 10 <= rest {
        rest /= 10;
        n += 1;
    }
    n
}

// Writes some bytes, and answers the place after them.
fn put_bytes(out: &mut [u8], at: usize, s: &[u8]) -> usize
    requires { at + length s.now ≤ length out.old }
    ensures { (result ≡ at + length s.now) × (out.new ≡ sets out.old at s.now) }
{
    let end = at + s.len();
    out[at..end].copy_from_slice(s);
    end
}

// Writes a number, its last digit first, and answers the place after it.
fn put_decimal(out: &mut [u8], at: usize, x: usize) -> usize
    requires { at + length (decimal x) ≤ length out.old }
    ensures { (result ≡ at + length (decimal x)) × (out.new ≡ sets out.old at (decimal x)) }
{
    let end = at + decimal_len(x);
    let mut rest = x;
    let mut i = end - 1;
    while 10 <= rest {
        out[i] = (48 + rest % 10) as u8;
        rest /= 10;
        i -= 1;
    }
    out[i] = (48 + rest) as u8;
    end
}

// Writes a word and a number, and answers the place after them.
pub(crate) fn put_word(out: &mut [u8], at: usize, word: &[u8], x: usize) -> usize
    requires { at + length (word.now ++ decimal x) ≤ length out.old }
    ensures { (result ≡ at + length (word.now ++ decimal x)) × (out.new ≡ sets out.old at (word.now ++ decimal x)) }
{
    let next = put_bytes(out, at, word);
    put_decimal(out, next, x)
}

// Writes a line of a word and a number, and answers the place after it.
pub(crate) fn put_line(out: &mut [u8], at: usize, word: &[u8], x: usize) -> usize
    requires { at + length (line word.now x) ≤ length out.old }
    ensures { (result ≡ at + length (line word.now x)) × (out.new ≡ sets out.old at (line word.now x)) }
{
    let next = put_word(out, at, word, x);
    put_bytes(out, next, b"\n")
}
