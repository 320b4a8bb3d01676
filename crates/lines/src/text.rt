// The lines of an answer: its first line, and under Unsafe one mask a line.
ghost use Rattle.std.specs.Prelude.{◌≡◌, ℕ, ◌+◌, ◌*◌, ◌≤◌, leb, length};
ghost use Rattle.std.proofs.lemmas.List.Edits.{sets};
ghost use Rattle.tasks.specs.Refusals.{refusal_number};
ghost use Rattle.lines.specs.Lines.{numbered, first_line, mask_lines, masks_given, lines_of, lines_writing, lines_out};

use crate::decimal::{decimal_len, put_line, put_word};
use search::Verdict;
use tasks::Refusal;

// What a refusal is written by: its number, also one of no refusal that the paper lists.
pub trait Numbered {
    ghost number: { Self → ℕ };

    fn number(self) -> u8
        ensures { result ≡ number self };
}

impl Numbered for u8 {
    ghost number = { λ n. n };

    fn number(self) -> u8 {
        self
    }
}

impl Numbered for Refusal {
    ghost number = { refusal_number };

    fn number(self) -> u8 {
        Refusal::number(self)
    }
}

// An answer with the number of its refusal.
fn with_number<R: Numbered + Copy>(a: Result<Verdict, R>) -> Result<Verdict, u8>
    ensures { result ≡ numbered R.number a }
{
    match a {
        Ok(verdict) => Ok(verdict),
        Err(why) => Err(why.number()),
    }
}

// The length of the first line.
fn first_len(a: Result<Verdict, u8>) -> usize
    ensures { (result ≡ length (first_line a)) × (result ≤ 60) }
{
    match a {
        Ok(Verdict::Safe(n)) => 5 + decimal_len(n) + 1,
        Ok(Verdict::Unsafe(l, n)) => 7 + decimal_len(l) + 1 + decimal_len(n) + 1,
        Ok(Verdict::NoRoom(n)) => 5 + decimal_len(n) + 1,
        Err(why) => 8 + decimal_len(usize::from(why)) + 1,
    }
}

// Writes the first line at the front, and answers the place after it.
fn put_first(out: &mut [u8], a: Result<Verdict, u8>) -> usize
    requires { length (first_line a) ≤ length out.old }
    ensures { (result ≡ length (first_line a)) × (out.new ≡ sets out.old 0 (first_line a)) }
{
    match a {
        Ok(Verdict::Safe(n)) => put_line(out, 0, b"safe ", n),
        Ok(Verdict::Unsafe(l, n)) => {
            let next = put_word(out, 0, b"unsafe ", l);
            put_line(out, next, b" ", n)
        }
        Ok(Verdict::NoRoom(n)) => put_line(out, 0, b"room ", n),
        Err(why) => put_line(out, 0, b"refused ", usize::from(why)),
    }
}

// Whether the masks' lines fit into so many bytes.
fn masks_fit(masks: &[u8], room: usize) -> bool
    ensures { result ≡ leb (length (mask_lines masks.now)) room }
{
    let mut left = room;
    for &mask in masks {
        let n = decimal_len(usize::from(mask)) + 1;
        if left < n {
            return false;
        }
        left -= n;
    }
    true
}

// Writes the masks' lines, and answers the place after them.
fn put_masks(out: &mut [u8], from: usize, masks: &[u8]) -> usize
    requires { from + length (mask_lines masks.now) ≤ length out.old }
    ensures { (result ≡ from + length (mask_lines masks.now)) × (out.new ≡ sets out.old from (mask_lines masks.now)) }
{
    let mut at = from;
    for &mask in masks {
        at = put_line(out, at, b"", usize::from(mask));
    }
    at
}

// The masks that an answer gives: under Unsafe those at the front of the trace space.
fn masks_given(a: Result<Verdict, u8>, trace: &[u8]) -> &[u8]
    ensures { result.now ≡ masks_given a trace.now }
{
    match a {
        Ok(Verdict::Unsafe(l, _)) => &trace[..l.min(trace.len())],
        Ok(Verdict::Safe(_)) => &[],
        Ok(Verdict::NoRoom(_)) => &[],
        Err(_) => &[],
    }
}

// Writes the lines of an answer to the front of the output, where they fit: at most 60 bytes, and four more for each mask. A refusal may be
// any number, or one of the paper's.
pub fn write_lines<R: Numbered + Copy>(
    answer: Result<Verdict, R>,
    trace: &[u8],
    out: &mut [u8],
) -> Result<usize, Refusal>
    ensures { (result ≡ lines_writing (numbered R.number answer) trace.now out.old) × (out.new ≡ lines_out (numbered R.number answer) trace.now out.old) × (length (lines_of (numbered R.number answer) trace.now) ≤ 60 + 4 * length trace.now) }
{
    let a = with_number(answer);
    let masks = masks_given(a, trace);
    let n = first_len(a);
    if n <= out.len() && masks_fit(masks, out.len() - n) {
        let next = put_first(out, a);
        return Ok(put_masks(out, next, masks));
    }
    Err(Refusal::ShortOutput)
}
