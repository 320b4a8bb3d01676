// One job: its age, the time left, the slack, whether it is late, and by what it is ordered.
ghost use Rattle.std.specs.Prelude.{◌≡◌, nat_lt};
ghost use Rattle.jobs.specs.Job.{age, time_left, slack, late_job, keeps_running, job_key, job_age, lex};

// The age, P - p.
fn age(gap: u8, p: u8) -> i16
    ensures { result ≡ age gap p }
{
    i16::from(gap) - i16::from(p)
}

// The time left, D - (P - p).
fn time_left(deadline: u8, gap: u8, p: u8) -> i16
    ensures { result ≡ time_left deadline gap p }
{
    i16::from(deadline) - age(gap, p)
}

// The slack: the time left less the work left.
pub fn slack_of(deadline: u8, gap: u8, p: u8, c: u8) -> i16
    ensures { result ≡ slack deadline gap p c }
{
    time_left(deadline, gap, p) - i16::from(c)
}

// Whether a job with c work left is late.
pub fn late_job(deadline: u8, gap: u8, p: u8, c: u8) -> bool
    ensures { result ≡ late_job deadline gap p c }
{
    (0 < c) & (slack_of(deadline, gap, p, c) < 0)
}

// Whether a started job keeps its processor under the policy.
#[inline]
pub fn keeps_running(policy: u8) -> bool
    ensures { result ≡ keeps_running policy }
{
    (policy == 0) | (policy == 2)
}

// The key of a job: of two jobs that with the smaller one goes first, under any policy.
pub fn job_key(policy: u8, deadline: u8, gap: u8, p: u8, c: u8) -> i16
    ensures { result ≡ job_key policy deadline gap p c }
{
    if policy < 2 {
        return 0;
    }
    if policy < 4 {
        return time_left(deadline, gap, p);
    }
    slack_of(deadline, gap, p, c)
}

// The age by which equal keys are told apart, under any policy.
pub fn job_age(policy: u8, gap: u8, p: u8) -> i16
    ensures { result ≡ job_age policy gap p }
{
    if policy < 2 { 0 } else { age(gap, p) }
}

// Whether a is smaller than b; `rest` settles equal ones.
fn lex(a: i16, b: i16, rest: bool) -> bool
    ensures { result ≡ lex a b rest }
{
    (a < b) | (!(b < a) & rest)
}

// Whether a job with key a, age x and task number j goes before one with key b, age y and task number i.
pub fn goes_before(a: i16, x: i16, j: usize, b: i16, y: i16, i: usize) -> bool
    ensures { result ≡ lex a b (lex y x (nat_lt j i)) }
{
    lex(a, b, lex(y, x, j < i))
}
