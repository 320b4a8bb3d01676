// How the pairs of a state and a mask are split, and those of one pass.
ghost use Rattle.std.specs.Prelude.{◌<◌};

use tasks::Table;

// The task by which the pairs are split, the most that it is from its next release after a tick, and its bit in a mask.
#[derive(Clone, Copy, Debug, PartialEq, Eq)]
pub(crate) struct Split {
    pub(crate) task: usize,
    pub(crate) top: usize,
    pub(crate) bit: u8,
    pub(crate) ghost placed: { task < 8 },
    pub(crate) ghost small: { top < 256 },
}

// The pairs of a pass: how far the task is from its next release, from low to high - 1, and the class of the state, of so many.
#[derive(Clone, Copy, Debug, PartialEq, Eq)]
pub(crate) struct Pass {
    pub(crate) low: usize,
    pub(crate) high: usize,
    pub(crate) classes: usize,
    pub(crate) class: usize,
    pub(crate) ghost some: { 0 < classes },
}

// The one of two tasks with the greater least gap.
fn wider(t: Table, j: usize, i: usize) -> usize
    requires { (j < 8) × (i < 8) }
    ensures { result < 8 }
{
    if t.gap[j] < t.gap[i] { i } else { j }
}

// The task with the greatest least gap: by it the file's states fall into the most parts.
pub(crate) fn split_of(t: Table) -> Split {
    let mut task: usize = 0;
    for i in 0..8 {
        task = wider(t, task, i);
    }
    Split {
        task,
        top: usize::from(t.gap[task].saturating_sub(1)),
        bit: 1 << task,
    }
}
