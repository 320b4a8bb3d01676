// The task table by value, and its faults.
ghost use Rattle.std.specs.Prelude.{◌≡◌, ◌<◌};
ghost use Rattle.lists.specs.Lists.{any};
ghost use Rattle.tasks.specs.Refusals.{unless_refused};
ghost use Rattle.tasks.specs.Table.{outside, breaks, fault_at, table_fault};

use crate::refusal::Refusal;

// The last policy.
pub(crate) const LAST_POLICY: usize = 4;

// A table in memory: policy, processors, tasks, and for each of eight tasks its work C, deadline D and least gap P. The policy is a
// number, since a table may hold any; the columns are those of which the definitions speak, and a ticker is made of whole ones.
#[derive(Clone, Copy, Debug, PartialEq, Eq)]
pub struct Table {
    pub policy: u8,
    pub m: u8,
    pub n: u8,
    pub work: [u8; 8],
    pub deadline: [u8; 8],
    pub gap: [u8; 8],
}

// Whether a number is outside 1 to 8.
pub fn outside(x: u8) -> bool
    ensures { result ≡ outside x }
{
    !(1..=8).contains(&x)
}

// Whether the numbers of a task break 1 ≤ C ≤ D ≤ P ≤ 200.
pub(crate) fn breaks(work: usize, deadline: usize, gap: usize) -> bool
    ensures { result ≡ breaks work deadline gap }
{
    (work < 1) | (deadline < work) | (gap < deadline) | (200 < gap)
}

impl Table {
    // Whether task i breaks 1 ≤ C ≤ D ≤ P ≤ 200, or an entry after the nth is not 0.
    fn fault_at(self, i: usize) -> bool
        requires { i < 8 }
        ensures { result ≡ fault_at self i }
    {
        let work = usize::from(self.work[i]);
        let deadline = usize::from(self.deadline[i]);
        let gap = usize::from(self.gap[i]);
        let n = usize::from(self.n);
        if i < n {
            return breaks(work, deadline, gap);
        }
        (0 < work) | (0 < deadline) | (0 < gap)
    }

    fn any_fault(self) -> bool
        ensures { result ≡ any 8 (fault_at self) }
    {
        lists::any_place(|i| self.fault_at(i))
    }

    // Whether the table is valid, or the first of 4 to 7 that applies.
    pub fn check(self) -> Result<(), Refusal>
        ensures { result ≡ unless_refused (table_fault self) tt }
    {
        let policy = usize::from(self.policy);
        let m = outside(self.m);
        let n = outside(self.n);
        if LAST_POLICY < policy {
            return Err(Refusal::Policy);
        }
        if m {
            return Err(Refusal::Processors);
        }
        if n {
            return Err(Refusal::TaskCount);
        }
        if self.any_fault() {
            return Err(Refusal::Task);
        }
        Ok(())
    }
}
