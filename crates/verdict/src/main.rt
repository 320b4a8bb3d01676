// Reads a sheet from standard input and prints the lines of its verdict: one read, one call, one write.
#![tactic(auto)]

ghost use Rattle.std.specs.Prelude.{◌≤◌, length, IfOk};

use std::io;
use std::io::Read;

// Reads until the bytes lent are full or the input ends, and answers how many were read. `read_exact` does not say how many, and
// `read_to_end` takes the heap.
fn read_full(input: &mut impl Read, bytes: &mut [u8]) -> io::Result<usize>
    ensures { IfOk result (λ got. got ≤ length bytes.new) }
{
    let mut got = 0;
    while got < bytes.len() {
        match input.read(&mut bytes[got..])? {
            0 => break,
            more => got += more,
        }
    }
    Ok(got)
}

// The first 64 bytes of the input decide every answer (`judged_front` in crates/lines/proofs/Front.antt).
fn main(rt: HostRuntime) -> io::Result<()> {
    let mut sheet = [0u8; 64];
    let got = read_full(&mut rt.stdin(), &mut sheet)?;
    let mut out = [0u8; 32896];
    let n = lines::judge(&sheet[..got], &mut out);
    rt.write_all(&out[..n])
}
