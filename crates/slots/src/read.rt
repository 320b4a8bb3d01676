// The parts of a slot, read in the columns of k slots. The states are read by `states`.
ghost use Rattle.std.specs.Prelude.{◌≡◌, ◌*◌, ◌<◌, ◌≤◌, length};
ghost use Rattle.slots.specs.Layout.{columns, parent_at, mask_at};
ghost use Rattle.slots.specs.Running.{link_at};

use states::four_at;

// The parent of slot i, and the word that stands for it while a search runs.
pub fn parent_of(work: &[u8], k: usize, i: usize) -> u32
    requires { (i < k) × (21 * k ≤ length work.now) }
    ensures { result ≡ parent_at (columns k) work.now i }
{
    four_at(work, 16 * k + 4 * i)
}

// The link of slot i.
pub fn link_of(work: &[u8], k: usize, i: usize) -> usize
    requires { (i < k) × (21 * k ≤ length work.now) }
    ensures { result ≡ link_at k work.now i }
{
    (parent_of(work, k, i) % 1048576) as usize
}

// The mask of slot i.
pub fn mask_of(work: &[u8], k: usize, i: usize) -> u8
    requires { (i < k) × (21 * k ≤ length work.now) }
    ensures { result ≡ mask_at (columns k) work.now i }
{
    work[20 * k + i]
}
