// The body of a record, read from its front on. After its end each number is 0, and there are no more bytes.
ghost use Rattle.std.specs.Prelude.{◌<◌, ◌≤◌, length};

use crate::sessions::Kept;
use crate::tick;
use session::Session;
use std::array;
use tasks::{State, Table};

// What is left of a body.
#[derive(Clone, Copy)]
pub struct Body<'a>(pub &'a [u8]);

impl<'a> Body<'a> {
    // The bytes that are left.
    pub fn rest(self) -> &'a [u8] {
        self.0
    }

    // The next bytes, and all that are left where there are fewer.
    pub fn bytes(&mut self, count: usize) -> &'a [u8]
        ensures { length result.now ≤ count }
    {
        let (bytes, rest) = self.0.split_at_checked(count).unwrap_or((self.0, &[]));
        self.0 = rest;
        bytes
    }

    // The next N bytes.
    pub fn array<const N: usize>(&mut self) -> [u8; N] {
        let bytes = self.bytes(N);
        array::from_fn(|i| bytes.get(i).copied().unwrap_or(0))
    }

    // The next byte.
    pub fn byte(&mut self) -> u8 {
        u8::from_le_bytes(self.array())
    }

    // A number in two bytes, low byte first.
    pub fn pair(&mut self) -> u16 {
        u16::from_le_bytes(self.array())
    }

    // A number in four bytes, low byte first.
    pub fn four(&mut self) -> u32 {
        u32::from_le_bytes(self.array())
    }

    // Bytes after their number in a byte.
    pub fn counted(&mut self) -> &'a [u8]
        ensures { length result.now < 256 }
    {
        let count = self.byte();
        self.bytes(usize::from(count))
    }

    // A table: policy, m, n, and eight each of work, deadline and gap.
    pub fn table(&mut self) -> Table {
        Table {
            policy: self.byte(),
            m: self.byte(),
            n: self.byte(),
            work: self.array(),
            deadline: self.array(),
            gap: self.array(),
        }
    }

    // A state: c and p of each of eight tasks.
    pub fn state(&mut self) -> State {
        tick::of_bytes(self.array())
    }

    // A session: flags, the present state, and the state of each mark, also where it is not set.
    pub fn session(&mut self) -> Kept {
        let flags = self.byte();
        let present = self.state();
        let unset = array::from_fn(|_| self.state());
        let marks = array::from_fn(|i| tasks::has_bit(flags, i).then_some(unset[i]));
        Kept {
            session: Session { present, marks },
            unset,
        }
    }
}
