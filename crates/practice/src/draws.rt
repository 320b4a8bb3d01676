// One draw, and the task that three of them make.
ghost use Rattle.std.specs.Prelude.{◌≡◌, ◌+◌, ◌%◌};
ghost use Rattle.practice.specs.Practice.{drawn};

use tasks::Task;

// One draw, which is the new s.
pub(crate) fn drawn(s: u16) -> u16
    ensures { result ≡ drawn s }
{
    ((25173 * u32::from(s) + 13849) % 65536) as u16
}

// The task of three draws: P by the first, D by the second, C by the third.
pub(crate) fn task_of(first: u16, second: u16, third: u16) -> Task
    ensures { (result.gap ≡ 1 + first % 200) × (result.deadline ≡ 1 + second % result.gap) × (result.work ≡ 1 + third % result.deadline) }
{
    let longest: u16 = 200;
    let gap = 1 + first % longest;
    let deadline = 1 + second % gap;
    let work = 1 + third % deadline;
    Task {
        work: work as u8,
        deadline: deadline as u8,
        gap: gap as u8,
    }
}
