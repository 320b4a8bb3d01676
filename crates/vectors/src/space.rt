// Lent spaces: what they hold beforehand, and what was changed of that.
use crate::text::Hex;
use std::ops::Range;
use std::{fmt, io};

// What a space holds beforehand: its first byte, and how much each next one is more, modulo 256.
#[derive(Clone, Copy)]
pub struct Pattern {
    pub first: u8,
    pub step: u8,
}

// What an output holds beforehand.
const OUTPUT: Pattern = Pattern {
    first: 11,
    step: 37,
};

impl Pattern {
    // The byte at a place.
    fn at(self, place: usize) -> u8 {
        let low = (place % 256) as u8;
        self.first.wrapping_add(self.step.wrapping_mul(low))
    }

    // Fills a space.
    pub fn fill(self, space: &mut [u8]) {
        for (i, byte) in space.iter_mut().enumerate() {
            *byte = self.at(i);
        }
    }

    // How many bytes of a part of a space are not as they were.
    pub fn changed(self, space: &[u8], part: Range<usize>) -> usize {
        part.filter(|&i| space.get(i).is_some_and(|byte| *byte != self.at(i)))
            .count()
    }
}

// Prints the line of a call that is lent an output of some length: what it answers, and the whole output, which it has
// to leave or write.
pub fn output<D, F>(rt: &impl Print, label: &str, length: u8, call: F) -> io::Result<()>
where
    D: fmt::Display + Drop,
    F: FnOnce(&mut [u8]) -> D,
    requires { F.IsAlwaysCallable call }
{
    let mut space = [0u8; 256];
    let out = &mut space[..usize::from(length)];
    OUTPUT.fill(out);
    let answer = call(out);
    println!(rt; "{label}{answer} {}", Hex(out))
}
