// The search level by level: a level is hunted for a miss before any of its successors is stored.
ghost use Rattle.std.specs.Prelude.{◌≡◌};
ghost use Rattle.search.specs.Keeping.{Fresh, RanBy};

use crate::hunt::hunt;
use crate::index::push;
use crate::store::store_level;
use states::Ticking;

// Safe with the count; Unsafe with L and the count; or No room with the count.
#[derive(Clone, Copy, Debug, PartialEq, Eq)]
pub enum Verdict {
    Safe(usize),
    Unsafe(usize, usize),
    NoRoom(usize),
}

// How the levels end: with a slot, a mask that misses from it, the number of masks that lead to it and that of slots filled;
// with all states in that many slots; or with every slot filled, and a state more.
#[derive(Clone, Copy, Debug, PartialEq, Eq)]
pub(crate) enum End {
    Missed {
        slot: usize,
        mask: u8,
        depth: usize,
        filled: usize,
    },
    Closed(usize),
    Full,
}

// Searches the states of a valid table, with k slots. The words stay in the place of the parents. A `loop`, since it ends in three ways.
pub(crate) fn run_levels(
    ticking: Ticking,
    work: &mut [u8],
    heads: &mut [u32],
    ends: &mut [u32],
    k: usize,
) -> End
    requires { Fresh ticking.table k ends.old work.old heads.old }
    ensures { RanBy ticking.table k ends.new work.old work.new result }
{
    push(work, heads, k, 0, [0; 8], 0, 0);
    let mut lo: usize = 0;
    let mut hi: usize = 1;
    let mut depth: usize = 0;
    loop {
        if let Some((slot, mask)) = hunt(ticking, work, lo, hi) {
            return End::Missed {
                slot,
                mask,
                depth,
                filled: hi,
            };
        }
        let Some(n) = store_level(ticking, work, heads, ends, k, lo, hi) else {
            return End::Full;
        };
        if n == hi {
            return End::Closed(hi);
        }
        lo = hi;
        hi = n;
        depth += 1;
    }
}
