// Searches: the spaces that they are lent, their answers, and the bytes that they leave.
use crate::body::Body;
use crate::columns::Columns;
use crate::files::Judged;
use crate::space::Pattern;
use crate::text::{Hex, Refused, Shown};
use search::Verdict;
use std::{fmt, io};
use tasks::{Refusal, Table};

// What each byte of a space is more than the one before it, modulo 256.
const STEP: u8 = 29;

// The two spaces after a search, and what they held before.
#[derive(Clone, Copy)]
struct Left<'a> {
    work: &'a [u8],
    trace: &'a [u8],
    pattern: Pattern,
}

// How many bytes changed: of the states, the parents and the masks of later slots, and after the masks; and of
// later bytes of the trace space.
#[derive(Clone, Copy)]
struct Changed {
    later: [usize; 4],
    trace: usize,
}

impl fmt::Display for Changed {
    fn fmt<W: fmt::Write>(&self, f: &mut fmt::Formatter<W>) -> fmt::Result {
        let [states, parents, masks, after] = self.later;
        write!(
            f,
            " later {states} {parents} {masks} {after} trace {}",
            self.trace
        )
    }
}

impl Left<'_> {
    // How many bytes changed besides the first n slots, and the first l masks.
    fn changed(self, n: usize, l: usize) -> Changed {
        let k = self.work.len() / 21;
        let n = n.min(k);
        let parts = [
            16 * n..16 * k,
            16 * k + 4 * n..20 * k,
            20 * k + n..21 * k,
            21 * k..self.work.len(),
        ];
        Changed {
            later: parts.map(|part| self.pattern.changed(self.work, part)),
            trace: self.pattern.changed(self.trace, l..self.trace.len()),
        }
    }
}

// Prints a verdict and the fields that follow it: which slots are not as they have to be, the digest of the
// states, and what replaying the first l masks answers.
fn print(rt: &impl Print, verdict: Verdict, t: Table, left: Left) -> io::Result<()> {
    let columns = Columns::of(left.work);
    match verdict {
        Verdict::Safe(n) => {
            let wrong = columns.wrong(t, n);
            println!(rt;
                "search safe {n}{} wrong {wrong} digest {}",
                left.changed(n, 0),
                columns.digest(n)
            )
        }
        Verdict::Unsafe(l, n) => {
            let wrong = columns.wrong(t, n);
            let masks = left.trace.get(..l).unwrap_or(left.trace);
            let replay = Shown(tasks::replay(t, masks).answer);
            println!(rt;
                "search unsafe {l} {n}{} wrong {wrong} digest {} replay{replay}",
                left.changed(n, l),
                columns.digest(n)
            )
        }
        Verdict::NoRoom(k) => {
            println!(rt;
                "search room {k}{} wrong {}",
                left.changed(k, 0),
                columns.wrong(t, k)
            )
        }
    }
}

// How many slots a search wrote.
fn count_of(answer: Result<Verdict, Refusal>) -> usize {
    match answer {
        Ok(Verdict::Safe(n) | Verdict::Unsafe(_, n) | Verdict::NoRoom(n)) => n,
        Err(_) => 0,
    }
}

// A body is a sheet after its length, then what is given of the spaces: the length of each, and their first byte.
// Fills both, and does with them what is to be done. Nothing where one of them would be too long.
fn lend<F>(mut body: Body, run: F) -> io::Result<()>
where
    F: FnOnce(&[u8], &mut [u8], &mut [u8], Pattern) -> io::Result<()>,
    requires { F.IsAlwaysCallable run }
{
    let mut work = [0u8; 65520];
    let mut trace = [0u8; 8192];
    let sheet = body.counted();
    let work = work.get_mut(..body.four() as usize);
    let trace = trace.get_mut(..body.four() as usize);
    let pattern = Pattern {
        first: body.byte(),
        step: STEP,
    };
    let (Some(work), Some(trace)) = (work, trace) else {
        return Ok(());
    };
    pattern.fill(work);
    pattern.fill(trace);
    run(sheet, work, trace, pattern)
}

// Kind v: the answer of the search, its own refusal too, and what it leaves in the spaces. A verdict on a sheet that is refused is shown
// with a table of zeros.
pub fn search(rt: &impl Print, body: Body) -> io::Result<()> {
    lend(body, |sheet, work, trace, pattern| {
        let read = tasks::read_sheet(sheet);
        let answer = search::search_sheet(sheet, work, trace);
        let left = Left {
            work,
            trace,
            pattern,
        };
        match answer {
            Ok(verdict) => print(rt, verdict, read.unwrap_or(Table::empty(0, 0, 0)), left),
            Err(r) => println!(rt; "search{}{}", Refused(r), left.changed(0, 0)),
        }
    })
}

// Kind q: the number that the call for C programs returns.
pub fn call(rt: &impl Print, body: Body) -> io::Result<()> {
    lend(body, |sheet, work, trace, _| {
        println!(rt; "call {}", ronchhek::ronchhek_verdict(sheet, work, trace))
    })
}

// Kind l: that number and the whole work space.
pub fn layout(rt: &impl Print, body: Body) -> io::Result<()> {
    lend(body, |sheet, work, trace, _| {
        let number = ronchhek::ronchhek_verdict(sheet, work, trace);
        println!(rt; "layout {number} {}", Hex(work))
    })
}

// Kind e: how the states that the search leaves are judged as a file, where they stand.
pub fn evidence(rt: &impl Print, body: Body) -> io::Result<()> {
    lend(body, |sheet, work, trace, _| {
        let answer = search::search_sheet(sheet, work, trace);
        let file = Columns::of(work).first(count_of(answer)).as_flattened();
        println!(rt; "evidence {}{}", file.len(), Judged::of(sheet, file))
    })
}
