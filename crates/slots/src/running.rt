// The words that stand for parents while a search runs, and the last pass, which leaves the parents.
ghost use Rattle.std.specs.Prelude.{◌≡◌, ◌+◌, ◌*◌, ◌/◌, ◌<◌, ◌≤◌, length, get_or};
ghost use Rattle.std.proofs.lemmas.List.Edits.{sets};
ghost use Rattle.slots.specs.Layout.{four_bytes};
ghost use Rattle.slots.specs.Running.{word_at, word_of, ends_after, BlockSettled, Settled};

use crate::read::parent_of;
use crate::write::put_parent;

// The word of a slot: its link, and its parent's place in a block of 4096.
pub fn word_of(parent: usize, link: u32) -> u32
    requires { link < 1048576 }
    ensures { result ≡ word_of parent link }
{
    link + 1048576 * ((parent % 4096) as u32)
}

// Where the slots from i on of its block end, or hi where that is before.
pub fn block_upto(i: usize, hi: usize) -> usize
    requires { (i < hi) × (hi ≤ 1000000) }
    ensures { (i < result) × (result ≤ hi) × (result ≤ 4096 * (i / 4096 + 1)) }
{
    hi.min(4096 * (i / 4096 + 1))
}

// Slot i has been tried, and n slots are filled: where it is the last of its block, that is the block's end.
pub fn end_slot(ends: &mut [u32], i: usize, n: usize)
    requires { (i < 4096 * length ends.old) × (n ≤ 1000000) }
    ensures { ends.new ≡ ends_after ends.old i n }
{
    if i % 4096 == 4095 {
        ends[i / 4096] = n as u32;
    }
}

// Writes the parent of slot i, which is of block b, in the place of its word.
fn settle_slot(work: &mut [u8], k: usize, b: usize, i: usize)
    requires { (i < k) × (21 * k ≤ length work.old) × (b < 245) }
    ensures { work.new ≡ sets work.old (16 * k + 4 * i) (four_bytes (4096 * b + word_at k work.old i / 1048576)) }
{
    let parent = 4096 * (b as u32) + parent_of(work, k, i) / 1048576;
    put_parent(&mut work[16 * k + 4 * i..], parent);
}

// Writes the parents of the slots from `from` to `to` - 1, all of block b, and says how many slots have theirs then.
fn settle_block(work: &mut [u8], k: usize, b: usize, from: usize, to: usize) -> usize
    requires { (to ≤ k) × (21 * k ≤ length work.old) × (b < 245) }
    ensures { BlockSettled k b from to work.old work.new result }
{
    for i in from..to {
        settle_slot(work, k, b, i);
    }
    from.max(to)
}

// Writes the parents of the first n slots of k, block by block.
pub fn settle(work: &mut [u8], ends: &[u32], k: usize, n: usize)
    requires { (n ≤ k) × (21 * k ≤ length work.old) × (length ends.now ≡ 245) × (n ≤ get_or ends.now 244 0) }
    ensures { Settled k ends.now work.old work.new n }
{
    let mut from: usize = 0;
    for (b, end) in ends.iter().enumerate() {
        if from == n {
            break;
        }
        from = settle_block(work, k, b, from, n.min(*end as usize));
    }
}
