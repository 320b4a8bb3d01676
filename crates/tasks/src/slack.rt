// Whether a tick may make a job late, seen without a tick.
ghost use Rattle.std.specs.Prelude.{◌≡◌};
ghost use Rattle.tasks.specs.Tight.{tight_job, tight};
ghost use Rattle.tasks.specs.Words.{state_of};

use crate::table::Table;
use crate::words::{gap_in, work_in};

// Whether a job with these numbers has slack 0 or less.
fn tight_job(deadline: u8, gap: u8, p: u8, c: u8) -> bool
    ensures { result ≡ tight_job deadline gap p c }
{
    (0 < c) & (jobs::slack_of(deadline, gap, p, c) < 1)
}

// Whether some job of the state in the words has slack 0 or less, or would have it if it were released now. From a
// proper state of a valid table in which none has, no legal mask misses.
pub fn tight(t: Table, v: [u16; 8]) -> bool
    ensures { result ≡ tight t (state_of v) }
{
    lists::any_place(|i| {
        let p = gap_in(v[i]);
        let has = tight_job(t.deadline[i], t.gap[i], p, work_in(v[i]));
        let new = tight_job(t.deadline[i], t.gap[i], t.gap[i], t.work[i]);
        has | ((p == 0) & new)
    })
}
