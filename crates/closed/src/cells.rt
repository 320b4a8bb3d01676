// An index over the states of a file, on the stack and smaller than the file. A cell is 0, or has 128 and seven bits of a key's hash above
// the place of a state. The cells are mere hints: what a cell names is compared with the file, and where they do not help the file is
// scanned. So a lookup is right whatever they hold, and nothing is promised of them.
ghost use Rattle.std.specs.Prelude.{◌≡◌, ◌+◌, ◌*◌, ◌<◌, ◌≤◌, length};
ghost use Rattle.closed.specs.Keeping.{HeldIs, NamedIs, ProbeIs};

use crate::file::File;
use states::{Key, key_in, mix, same_keys};

// The first of the 256 cells in which a key may stand.
fn first_cell(key: Key, length: usize) -> usize
    requires { 256 < length }
    ensures { result + 256 < length }
{
    let x = mix(key);
    (x / 4294967296 + x % 4294967296) & (length - 257)
}

// What stands above the place in a cell: 128 and more, so that no cell with a place is 0.
fn tag_of(key: Key) -> u32
    ensures { result < 256 }
{
    ((mix(key) / 262144 % 128) as u32) + 128
}

// Whether the place in a cell is that of a state of the file with the key.
fn names(file: File, cell: u32, key: Key) -> bool
    ensures { NamedIs file.entry.bytes.now file.entry.n key result }
{
    let i = (cell % 16777216) as usize;
    i < file.n && same_keys(key_in(file.bytes, i), key)
}

// What a walk along the cells of a key ends with.
#[derive(Clone, Copy, Debug, PartialEq, Eq)]
pub(crate) enum Probed {
    Found,
    Empty(usize),
    Crowded,
}

fn probe(file: File, cells: &[u32], key: Key) -> Probed
    requires { 256 < length cells.now }
    ensures { ProbeIs file.entry.bytes.now file.entry.n key (length cells.now) result }
{
    let first = first_cell(key, cells.len());
    let tag = tag_of(key);
    for at in first..first + 256 {
        let cell = cells[at];
        if cell == 0 {
            return Probed::Empty(at);
        }
        if cell / 16777216 == tag && names(file, cell, key) {
            return Probed::Found;
        }
    }
    Probed::Crowded
}

impl File<'_> {
    // Whether one of the states has the key.
    pub(crate) fn holds(self, cells: &[u32], key: Key) -> bool
        requires { 256 < length cells.now }
        ensures { HeldIs self.entry.bytes.now self.entry.n key result }
    {
        match probe(self, cells, key) {
            Probed::Found => true,
            Probed::Empty(_) | Probed::Crowded => self.scan(key),
        }
    }
}

// Puts the place of state i with this key into a cell, if one is empty and none has the key. Places from 2^24 on do not fit.
pub(crate) fn put(file: File, cells: &mut [u32], key: Key, i: usize)
    requires { 256 < length cells.old }
    ensures { length cells.new ≡ length cells.old }
{
    if let Probed::Empty(at) = probe(file, cells, key) {
        if i < 16777216 {
            cells[at] = tag_of(key) * 16777216 + (i as u32);
        }
    }
}
