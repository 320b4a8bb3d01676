// The hash index over the slots: the newest slot of each bucket in `heads`, and in each slot's word the link to the next older one.
// A slot i is written i + 1, and 0 ends a chain. Above its slot a head has a bit for each tag in its chain: most states that are
// new are known as such by these bits alone.
ghost use Rattle.std.specs.Prelude.{◌≡◌, ◌^◌, ◌<◌};
ghost use Rattle.tasks.specs.Words.{state_of};
ghost use Rattle.search.specs.Indexed.{bucket_for, tag_for, Indexed, HeldIs, Pushed};

use slots::{link_of, put_slot, word_of};
use states::{Key, key_in, key_of, mix};

// The bucket of a key, of `size` buckets: a power of two, for an even spread.
fn bucket(key: Key, size: usize) -> usize
    requires { 0 < size }
    ensures { (result ≡ bucket_for size key) × (result < size) }
{
    let x = mix(key);
    (x / 4294967296 + x % 4294967296) & (size - 1)
}

// The bit of a key's tag.
fn tag_bit(key: Key) -> u32
    ensures { (result ≡ 2 ^ tag_for key) × (result < 4096) }
{
    let tag = mix(key) / 262144 % 12;
    1 << tag
}

// Whether one of the first n of k slots holds the state in the words v. The chain's links lie in the work space: no heap, no index.
pub(crate) fn holds(work: &[u8], heads: &[u32], k: usize, n: usize, v: [u16; 8]) -> bool
    requires { Indexed k work.now heads.now n }
    ensures { HeldIs work.now n (state_of v) result }
{
    let key = key_of(v);
    let b = bucket(key, heads.len());
    let head = heads[b];
    if (head / 1048576) & tag_bit(key) == 0 {
        return false;
    }
    let mut cur = (head % 1048576) as usize;
    while let Some(j) = cur.checked_sub(1) {
        if key_in(work, j) == key {
            return true;
        }
        cur = link_of(work, k, j);
    }
    false
}

// Writes slot n of k, at the front of its bucket's chain.
pub(crate) fn push(
    work: &mut [u8],
    heads: &mut [u32],
    k: usize,
    n: usize,
    v: [u16; 8],
    parent: usize,
    mask: u8,
)
    requires { Indexed k work.old heads.old n × (n < k) }
    ensures { Pushed k work.old work.new heads.old heads.new n (state_of v) parent mask }
{
    let key = key_of(v);
    let b = bucket(key, heads.len());
    let head = heads[b];
    let word = word_of(parent, head % 1048576);
    put_slot(work, k, n, v, word, mask);
    let tags = (head / 1048576) | tag_bit(key);
    heads[b] = tags * 1048576 + ((n + 1) as u32);
}
