// Keys: a state's sixteen bytes in four numbers. By these it is compared and hashed.
ghost use Rattle.std.specs.Prelude.{◌≡◌, ◌+◌, ◌*◌, ◌==◌, ◌&&◌};
ghost use Rattle.std.specs.Cmp.Rules.{comparing};
ghost use Rattle.std.proofs.Common.{rules};
ghost use Rattle.tasks.specs.Words.{state_of};
ghost use Rattle.states.specs.Keys.{key_of, same_keys, mixed};

#[derive(Clone, Copy, Debug)]
pub struct Key {
    pub a: u32,
    pub b: u32,
    pub c: u32,
    pub d: u32,
}

// All four numbers, with no branch between them: the compiler then compares them as one vector.
impl PartialEq for Key {
    ghost eq = { λ k l. ((k.a == l.a && k.b == l.b) && k.c == l.c) && k.d == l.d };

    ghost laws = { Prim.search (comparing, rules) };

    fn eq(&self, other: &Key) -> bool {
        (self.a == other.a) & (self.b == other.b) & (self.c == other.c) & (self.d == other.d)
    }
}

impl Eq for Key {
    ghost laws = { Prim.search (comparing, rules) };
}

// The number of two words, low word first.
fn double(x: u16, y: u16) -> u32
    ensures { result ≡ x + 65536 * y }
{
    u32::from(x) + 65536 * u32::from(y)
}

// The key of a state in words.
pub fn key_of(v: [u16; 8]) -> Key
    ensures { result ≡ key_of (state_of v) }
{
    Key {
        a: double(v[0], v[1]),
        b: double(v[2], v[3]),
        c: double(v[4], v[5]),
        d: double(v[6], v[7]),
    }
}

// Whether two keys are the same.
pub fn same_keys(k: Key, l: Key) -> bool
    ensures { result ≡ same_keys k l }
{
    k == l
}

// A sum in which every byte of the key counts. The factors are below 2^30, so it fits.
pub fn mix(key: Key) -> usize
    ensures { result ≡ mixed key }
{
    625341585 * (key.a as usize)
        + 1013904223 * (key.b as usize)
        + 668265261 * (key.c as usize)
        + 374761393 * (key.d as usize)
}
